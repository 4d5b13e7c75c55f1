// Sends and cancels (R-9).
ghost use Rattle.std.specs.Prelude.{[]};
ghost use Rattle.definition.specs.Tables.{name_at};
ghost use Rattle.reading.specs.Content.{sends, cancels};
ghost use Rattle.reading.specs.Print.{act_text};
ghost use Rattle.spell.specs.Laid.{Laid};
ghost use Rattle.spell.specs.Ready.{NameReady};
ghost use Rattle.spell.specs.Sends.{IdReady, SendReady, sent_id, id_text, delay_text};

use crate::parts::{lay_byte, lay_number, lay_part};
use crate::values::lay_name;
use tables::limits;

// The attribute id of a send, if it has one.
fn lay_send_id(names: &[u8], id: u64, out: &mut [u8], at: usize) -> usize
    requires { IdReady names.now id }
    ensures { Laid (id_text (sent_id names.now id)) out.old at out.new result }
{
    if id == limits::NO_NUMBER {
        return at;
    }
    let begun = lay_part(b" id=\"", out, at);
    let named = lay_name(names, id, out, begun);
    lay_byte(b'"', out, named)
}

// The attribute delay, which is left out where it is 0.
fn lay_delay(delay: u64, out: &mut [u8], at: usize) -> usize
    ensures { Laid (delay_text delay) out.old at out.new result }
{
    if delay == 0 {
        return at;
    }
    let begun = lay_part(b" delay=\"", out, at);
    let stated = lay_number(delay, out, begun);
    lay_byte(b'"', out, stated)
}

pub fn lay_send(names: &[u8], n: u64, delay: u64, id: u64, out: &mut [u8], at: usize) -> usize
    requires { SendReady names.now n id }
    ensures { Laid (act_text [] (sends (name_at names.now n) delay (sent_id names.now id))) out.old at out.new result }
{
    let begun = lay_part(b"<send", out, at);
    let told = lay_send_id(names, id, out, begun);
    let opened = lay_part(b" event=\"", out, told);
    let named = lay_name(names, n, out, opened);
    let closed = lay_byte(b'"', out, named);
    let delayed = lay_delay(delay, out, closed);
    lay_part(b"/>", out, delayed)
}

pub fn lay_cancel(names: &[u8], n: u64, out: &mut [u8], at: usize) -> usize
    requires { NameReady names.now n }
    ensures { Laid (act_text [] (cancels (name_at names.now n))) out.old at out.new result }
{
    let begun = lay_part(b"<cancel sendid=\"", out, at);
    let named = lay_name(names, n, out, begun);
    lay_part(b"\"/>", out, named)
}
