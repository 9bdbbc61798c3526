//! The input and the output of a command.

ghost use Rattle.std.specs.Prelude.{◌≡◌, IfErr, IfOk};
ghost use Rattle.tesla_convert.specs.Files.{ClosesBoth, OpensBoth, OpensNotBoth};

use tesla_desk::Desk;
use tesla_front::Fault;

/// Opens an input, and then an output. Where the output isn't opened, the input is closed again.
///
/// `Open` exactly where the desk's count of openings rose, `NoMemory` where there was no memory; no other fault comes, and
/// no page has changed then. Where there was no memory, the input wasn't opened, or no byte of it was read.
pub fn open_files<D: Desk>(
    input: &str,
    output: &str,
    desk: &mut D,
) -> Result<(D::In, D::Out), Fault>
    ensures both { IfOk result (λ it. OpensBoth input.now output.now (D.In.left it.0) (D.Out.written it.1) (D.told desk.old) (D.told desk.new)) }
    ensures names { IfOk result (λ it. (D.In.name it.0 ≡ input.now) × (D.Out.name it.1 ≡ output.now)) }
    ensures fresh { IfOk result (λ it. (D.In.faults it.0 ≡ 0) × (D.Out.faults it.1 ≡ 0)) }
    ensures refused { IfErr result (OpensNotBoth input.now output.now (D.told desk.old) (D.told desk.new)) }
{
    let source = match desk.open_source(input) {
        Ok(source) => source,
        Err(refusal) => return Err(Fault::from(refusal)),
    };
    match desk.open_sink(output) {
        Ok(sink) => Ok((source, sink)),
        Err(refusal) => {
            desk.close_source(source);
            Err(Fault::from(refusal))
        }
    }
}

/// Closes the input and the output of a command. It takes no memory and cannot fail.
pub fn close_files<D: Desk>(source: D::In, sink: D::Out, desk: &mut D)
    ensures { ClosesBoth (D.In.name source) (D.Out.name sink) (D.In.left source) (D.Out.written sink) (D.In.faults source) (D.Out.faults sink) (D.told desk.old) (D.told desk.new) }
{
    desk.close_source(source);
    desk.close_sink(sink);
}
