ghost use Rattle.std.specs.Prelude.{◌≡◌, [], None, IsSome};
ghost use Rattle.plugin_link.specs.Turns.{utf8_of};
ghost use Rattle.plugin_link.specs.Link.{link_told};
ghost use Rattle.plugin_link.specs.Pulling.{end_of};
ghost use Rattle.plugin_link.specs.Turning.{HasTurned, Trades, standing_of};

use crate::kept::Kept;
use crate::link::Link;
use crate::link_end::LinkEnd;
use crate::pull::pull_turn;
use crate::push::push_turn;
use plain_text::{Text, Texts};
use plugin_session::{Plugin, Turn};
use std::alloc::Global;
use std::marker::Model;

/// A plugin behind a link. It tells no turns.
#[derive(Drop)]
pub struct LinkPlugin<L> {
    link: L,
    kept: Kept,
    end: Option<LinkEnd>,
    alloc: Global,
}

impl<L> Model for LinkPlugin<L> {
    ghost use Rattle.plugin_link.specs.Turning.{Linked};

    ghost Value = { Linked L };

    ghost view = { λ p. record { link = p.link; kept = p.kept; end = p.end } };
}

impl<L: Link + Drop> LinkPlugin<L> {
    /// A plugin that has had no turn. It takes no memory before its first pull.
    pub fn new(alloc: Global, link: L) -> LinkPlugin<L>
        ensures { result ≡ record { link = link; kept = []; end = None } }
    {
        LinkPlugin {
            link,
            kept: Kept::new(alloc),
            end: None,
            alloc,
        }
    }

    /// How the link ended; `None` exactly where no turn has ended it.
    pub fn end(&self) -> Option<LinkEnd>
        ensures { result ≡ self.now.end }
    {
        self.end
    }

    /// The link. What was pulled and not given is lost.
    pub fn into_link(self) -> L
        ensures { result ≡ self.link }
    {
        let LinkPlugin {
            link,
            kept: _,
            end: _,
            alloc: _,
        } = self;
        link
    }

    /// Pushes a turn's lines, and pulls the lines that answer them into the list.
    fn trade(&mut self, lines: &[Text], given: &mut Texts) -> Result<(), LinkEnd>
        requires { given.old ≡ [] }
        ensures trades { Trades (link_told L.left L.held L.faults self.old.link)
            (link_told L.left L.held L.faults self.new.link)
            self.old.kept self.new.kept (utf8_of lines.now) (utf8_of given.new) (end_of result) }
        ensures end { self.new.end ≡ self.old.end }
    {
        match push_turn(&mut self.link, lines) {
            Ok(()) => pull_turn(self.alloc, &mut self.link, &mut self.kept, given),
            Err(_) => Err(LinkEnd::PushFailed),
        }
    }
}

impl<L: Link + Drop> Plugin for LinkPlugin<L> {
    ghost told = { λ _. None };

    /// Pushes the lines, each with LF, and one LF more; then pulls lines up to an empty one. It costs the bytes of both.
    fn turn(&mut self, lines: &[Text]) -> Turn
        ensures turned { HasTurned (standing_of L.left L.held L.faults self.old) (standing_of L.left L.held L.faults self.new)
            (utf8_of lines.now) (utf8_of result.lines) result.done }
        ensures untouched { IsSome self.old.end → self.new ≡ self.old }
    {
        let mut given = Texts::new(self.alloc);
        if self.end.is_none() {
            self.end = self.trade(lines, &mut given).err();
        }
        Turn {
            lines: given,
            done: self.end.is_some(),
        }
    }
}
