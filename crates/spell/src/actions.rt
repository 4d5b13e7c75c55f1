// Actions: a function for each kind, those of sends and cancels in `sends`.
ghost use Rattle.std.specs.Prelude.{[]};
ghost use Rattle.definition.specs.Tables.{name_at};
ghost use Rattle.reading.specs.Content.{raises, hosts, if_in, elseif_in, otherwise, end_if};
ghost use Rattle.reading.specs.Layout.{content};
ghost use Rattle.reading.specs.Print.{act_text};
ghost use Rattle.spell.specs.Laid.{Laid};
ghost use Rattle.spell.specs.Ready.{NameReady, RowReady};
ghost use Rattle.spell.specs.Actions.{ActionReady, act_at};

use crate::parts::{lay_number, lay_part};
use crate::sends::{lay_cancel, lay_send};
use crate::values::{lay_condition, lay_name};
use definition::Action;

fn lay_raise(names: &[u8], n: u64, out: &mut [u8], at: usize) -> usize
    requires { NameReady names.now n }
    ensures { Laid (act_text [] (raises (name_at names.now n))) out.old at out.new result }
{
    let begun = lay_part(b"<raise event=\"", out, at);
    let named = lay_name(names, n, out, begun);
    lay_part(b"\"/>", out, named)
}

fn lay_host(n: u64, out: &mut [u8], at: usize) -> usize
    ensures { Laid (act_text [] (hosts n)) out.old at out.new result }
{
    let begun = lay_part(b"<log label=\"", out, at);
    let labelled = lay_number(n, out, begun);
    lay_part(b"\"/>", out, labelled)
}

fn lay_if(numbers: &[u64], names: &[u8], i: u64, out: &mut [u8], at: usize) -> usize
    requires { RowReady numbers.now names.now i }
    ensures { Laid (act_text (content numbers.now names.now).rows (if_in i)) out.old at out.new result }
{
    lay_condition(numbers, names, b"<if", i, b">", out, at)
}

fn lay_else_if(numbers: &[u64], names: &[u8], i: u64, out: &mut [u8], at: usize) -> usize
    requires { RowReady numbers.now names.now i }
    ensures { Laid (act_text (content numbers.now names.now).rows (elseif_in i)) out.old at out.new result }
{
    lay_condition(numbers, names, b"<elseif", i, b"/>", out, at)
}

fn lay_else(out: &mut [u8], at: usize) -> usize
    ensures { Laid (act_text [] otherwise) out.old at out.new result }
{
    lay_part(b"<else/>", out, at)
}

fn lay_end(out: &mut [u8], at: usize) -> usize
    ensures { Laid (act_text [] end_if) out.old at out.new result }
{
    lay_part(b"</if>", out, at)
}

// Action a of the table; rule 1 lets no kind stand past the last.
pub fn lay_action(numbers: &[u64], names: &[u8], a: u64, out: &mut [u8], at: usize) -> usize
    requires { ActionReady numbers.now names.now a }
    ensures { Laid (act_text (content numbers.now names.now).rows (act_at numbers.now names.now a)) out.old at out.new result }
{
    match tables::action_at(numbers, a) {
        Action::Raise(n) => lay_raise(names, n, out, at),
        Action::Host(n) => lay_host(n, out, at),
        Action::If(i) => lay_if(numbers, names, i, out, at),
        Action::ElseIf(i) => lay_else_if(numbers, names, i, out, at),
        Action::Else => lay_else(out, at),
        Action::End => lay_end(out, at),
        Action::Send(n, delay, id) => lay_send(names, n, delay, id, out, at),
        Action::Cancel(n) => lay_cancel(names, n, out, at),
    }
}
