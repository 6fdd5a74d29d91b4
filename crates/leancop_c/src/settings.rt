//! The numbers of logics and domains.

ghost use Rattle.std.specs.Prelude.{◌≡◌};
ghost use Rattle.std.specs.Option.{option_map};
ghost use Rattle.leancop_c.specs.Numbers.{domains_numbered, logic_numbered, setting_numbered};
ghost use Rattle.logic_rules.specs.SettingView.{the_setting};

use logic_rules::{Domains, Logic, Setting};

fn logic_of(number: u32) -> Option<Logic>
    ensures { result ≡ logic_numbered number }
{
    match number {
        0 => Some(Logic::Classical),
        1 => Some(Logic::Intuitionistic),
        2 => Some(Logic::D),
        3 => Some(Logic::T),
        4 => Some(Logic::S4),
        5 => Some(Logic::S5),
        _ => None,
    }
}

fn domains_of(number: u32) -> Option<Domains>
    ensures { result ≡ domains_numbered number }
{
    match number {
        0 => Some(Domains::Constant),
        1 => Some(Domains::Cumulative),
        2 => Some(Domains::Varying),
        _ => None,
    }
}

pub fn setting_of(logic: u32, domains: u32) -> Option<Setting>
    ensures { option_map the_setting result ≡ setting_numbered logic domains }
{
    let Some(named) = logic_of(logic) else {
        return None;
    };
    let Some(kind) = domains_of(domains) else {
        return None;
    };
    Some(Setting::new(named, kind))
}
