//! Settings.

ghost use Rattle.std.specs.Prelude.{◌≡◌, ◌++◌, OnOk, OnErr};
ghost use Rattle.calculus.specs.DerivationText.{domains_text, logic_text, setting_text};
ghost use Rattle.formula_text.specs.Extends.{Extends};
ghost use Rattle.logic_rules.specs.SettingView.{the_setting};

use crate::append::{append_bytes, undo_if_failed};
use cop_base::NoMemory;
use logic_rules::{Domains, Logic, Setting};

fn append_domains(out: &mut Vec<u8>, domains: Domains) -> Result<(), NoMemory>
    ensures ok { OnOk result (out.new.items ≡ out.old.items ++ domains_text domains) }
    ensures extends { Extends out.old.items out.new.items }
{
    match domains {
        Domains::Constant => append_bytes(out, b" constant"),
        Domains::Cumulative => append_bytes(out, b" cumulative"),
        Domains::Varying => append_bytes(out, b" varying"),
    }
}

fn append_logic(out: &mut Vec<u8>, logic: Logic, domains: Domains) -> Result<(), NoMemory>
    ensures ok { OnOk result (out.new.items ≡ out.old.items ++ logic_text logic domains) }
    ensures extends { Extends out.old.items out.new.items }
{
    let name: &[u8] = match logic {
        Logic::Classical => return append_bytes(out, b"classical"),
        Logic::Intuitionistic => return append_bytes(out, b"intuitionistic"),
        Logic::D => b"d",
        Logic::T => b"t",
        Logic::S4 => b"s4",
        Logic::S5 => b"s5",
    };
    append_bytes(out, name)?;
    append_domains(out, domains)
}

/// Appends `classical`, `intuitionistic`, or one of `d t s4 s5` with the domains after a space.
pub fn write_setting(out: &mut Vec<u8>, setting: Setting) -> Result<(), NoMemory>
    ensures ok { OnOk result (out.new.items ≡ out.old.items ++ setting_text (the_setting setting)) }
    ensures err { OnErr result (out.new.items ≡ out.old.items) }
{
    let kept = out.len();
    let appended = append_logic(out, setting.logic(), setting.domains());
    undo_if_failed(out, kept, appended)
}
