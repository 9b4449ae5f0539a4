//! What both commands do: they read texts of a greatest length, and put what was printed.

ghost use Rattle.std.specs.Prelude.{◌≡◌, IfErr, IfSome};
ghost use Rattle.pj_outside.specs.Written.{Puts};
ghost use Rattle.pj_top.specs.Running.{IsNoDepot};
ghost use Rattle.pj_top.specs.Stops.{SinkCause};

use crate::stop::Stop;
use pj_outside::Sink;

/// The longest text that is read, in bytes.
pub const TEXT_LIMIT: usize = 1 << 20;

/// Puts what was printed, if anything was, or stops where the sink fails.
pub fn put_printed<S: Sink>(printed: &[u8], out: &mut S) -> Result<(), Stop>
    ensures told { IfSome (S.written out.old) (λ old. Puts old printed.now result (S.written out.new)) }
    ensures cause { SinkCause (S.faults out.old) (S.faults out.new) result }
    ensures depot { IfErr result IsNoDepot }
    ensures stop { IfErr result (λ why. why ≡ Stop.SinkFailed) }
{
    if printed.is_empty() {
        return Ok(());
    }
    match out.put(printed) {
        Ok(()) => Ok(()),
        Err(_) => Err(Stop::SinkFailed),
    }
}
