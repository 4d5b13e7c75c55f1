// From text to tables (R-1): is the text of the grammar, and has it a fault.
#![tactic(auto)]

ghost use Rattle.reader.specs.Judged.{Places, JudgedAs};

use gather::faults::first_fault;
use gather::ids::gather_ids;
use markup::Fault;

// How many rows a text has beside the root, whose ids are noted; or its first fault, 12, for any text. One of more than 32,768 bytes is not of the
// grammar, and its first fault stands in the first 32,768 or behind them.
pub fn judge(text: &[u8], levels: &mut [u8], ids: &mut [u16]) -> Result<usize, Fault>
    requires { Places levels.old ids.old }
    ensures { JudgedAs text.now levels.new ids.new result }
{
    if 32768 < text.len() {
        let end = 32768;
        gather_ids(&text[..end], levels, ids)?;
        return Err(Fault { at: end });
    }
    let n = gather_ids(text, levels, ids)?;
    match first_fault(text, levels, ids, n) {
        None => Ok(n),
        Some(at) => Err(Fault { at }),
    }
}
