//! Laws of the definitions, each the contract of a function: they tie runs to the lists of `plain_screen`.

ghost use Rattle.line_cache.specs.Laws.{MirrorsAreScreens, MirrorsStayNear, OperationsGoBySteps, PartnersAreOfScreens, StandingsNeedNoLines};

/// How lines stand is told without them.
pub fn standings_need_no_lines()
    ensures { StandingsNeedNoLines }
{}

/// What a front end has after an update is what the plan shows.
pub fn mirrors_are_screens()
    ensures { MirrorsAreScreens }
{}

/// A front end never has other lines than those near the window and those requested.
pub fn mirrors_stay_near()
    ensures { MirrorsStayNear }
{}

/// The operations of an update are told by the steps of its plan.
pub fn operations_go_by_steps()
    ensures { OperationsGoBySteps }
{}

/// Of partners those are valid by a mirror that are valid on the screen.
pub fn partners_are_of_screens()
    ensures { PartnersAreOfScreens }
{}
