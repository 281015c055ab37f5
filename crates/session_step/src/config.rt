ghost use Rattle.std.specs.Prelude.{◌≡◌, ◌<◌, ◌^◌, ℕ, List, Some};
ghost use Rattle.xi_plain.specs.declared.command.Act.TheVariants.{NewView};
ghost use Rattle.front_wire.specs.Fair.{AreFairChanges, IsFairAct};
ghost use Rattle.session_step.specs.Session.{config_with, config_after, opened_after};

use crate::given::Given;
use xi_plain::{Act, Changes, Config};

/// How texts are laid out and edited before anyone says otherwise.
pub const FIRST_CONFIG: Config = Config {
    tab: 4,
    width: 0,
    spaces: false,
};

/// How they are after a command.
pub fn config_after(config: Config, act: &Act) -> Config
    requires tab { 0 < config.tab }
    requires fair { IsFairAct act.now }
    ensures is { result ≡ config_after config act.now }
    ensures tab { 0 < result.tab }
{
    match act {
        Act::Configure(changes) => config_with(config, *changes),
        _ => config,
    }
}

/// How many views were opened after a command that was given this.
pub fn opened_after(opened: u64, act: &Act, given: &Given) -> u64
    requires few { opened < 2 ^ 63 }
    ensures { result ≡ opened_after opened act.now given.now }
{
    match act {
        Act::NewView { path: None } => opened + 1,
        Act::NewView { path: Some(_) } => with_found(opened, given),
        _ => opened,
    }
}

/// How many after the opening of a file.
fn with_found(opened: u64, given: &Given) -> u64
    requires few { opened < 2 ^ 63 }
    ensures { (path : List ℕ) → result ≡ opened_after opened (NewView (Some path)) given.now }
{
    match given {
        Given::Found(_) => opened + 1,
        _ => opened,
    }
}

fn config_with(config: Config, changes: Changes) -> Config
    requires tab { 0 < config.tab }
    requires fair { AreFairChanges changes }
    ensures is { result ≡ config_with config changes }
    ensures tab { 0 < result.tab }
{
    Config {
        tab: changes.tab.unwrap_or(config.tab),
        width: changes.width.unwrap_or(config.width),
        spaces: changes.spaces.unwrap_or(config.spaces),
    }
}
