// The library that other languages link: the public calls as C functions.
//
// A slice passes as a pointer and a count of its elements. Each answer is a struct (`answers`): that
// of the call below, told by `told`, and its refusals by `refused`. The span of a pattern is told
// where it is found. No call has a `requires`; each promise is that of the call below it, told as a
// struct.
#![tactic(auto)]

ghost use Rattle.std.specs.Prelude.{◌≡◌, length};
ghost use Rattle.volume.specs.Check.{verdict};
ghost use Rattle.volume.specs.Read.{read_answer, read_out};
ghost use Rattle.volume.specs.Write.{write_answer, write_out};
ghost use Rattle.join.specs.Join.{join_answer, join_out};
ghost use Rattle.plan.specs.Check as plans;
ghost use Rattle.plan.specs.Parts.{span_of};
ghost use Rattle.matcher.specs.Testing.{test_answer};
ghost use Rattle.line.specs.Read as lines;
ghost use Rattle.printer.specs.Write as printed;
ghost use Rattle.lihambozy.specs.Flat.{flat_sizes, flat_list, flat_volume, flat_plan, flat_span};
ghost use Rattle.lihambozy.specs.Flat.{flat_test, flat_words, flat_bytes, flat_join};
ghost use Rattle.lihambozy.specs.Search.{Kept};
ghost use Rattle.lihambozy.specs.Enumeration as enumerations;

mod answers;
mod refused;
mod told;

pub use answers::{
    CheckPlanAnswer, CheckVolumeAnswer, JoinVolumesAnswer, LineToPlanAnswer, ListAnswer,
    ListMatchesAnswer, PatternRowsAnswer, PlanToLineAnswer, ReadListAnswer, TestPositionsAnswer,
    WriteVolumeAnswer,
};

// Checks a volume.
#[unsafe(no_mangle)]
pub extern "C" fn lhz_check_volume(volume: &[u8]) -> CheckVolumeAnswer
    ensures { result ≡ flat_sizes (verdict volume.now) }
{
    volume::check(volume).into()
}

// Copies a list of a volume to the front of out.
#[unsafe(no_mangle)]
pub extern "C" fn lhz_read_list(volume: &[u8], list: u32, out: &mut [u32]) -> ReadListAnswer
    ensures value { result ≡ flat_list (read_answer volume.now list (length out.old)) }
    ensures out_after { out.new ≡ read_out volume.now list out.old }
{
    volume::read_list(volume, list, out).into()
}

// Writes the volume of counts and postings to the front of out.
#[unsafe(no_mangle)]
pub extern "C" fn lhz_write_volume(
    counts: &[u32],
    postings: &[u32],
    out: &mut [u8],
) -> WriteVolumeAnswer
    ensures value { result ≡ flat_volume (write_answer counts.now postings.now (length out.old)) }
    ensures out_after { out.new ≡ write_out counts.now postings.now out.old }
{
    volume::write(counts, postings, out).into()
}

// Writes the lists of the first volume, each with that of the second behind it, raised by so many
// documents, as one volume to the front of out.
#[unsafe(no_mangle)]
pub extern "C" fn lhz_join_volumes(
    first: &[u8],
    second: &[u8],
    raise: u32,
    out: &mut [u8],
) -> JoinVolumesAnswer
    ensures value { result ≡ flat_join (join_answer raise first.now second.now (length out.old)) }
    ensures out_after { out.new ≡ join_out raise first.now second.now out.old }
{
    join::join(first, second, raise, out).into()
}

// Checks a plan over a volume.
#[unsafe(no_mangle)]
pub extern "C" fn lhz_check_plan(volume: &[u8], plan: &[u32]) -> CheckPlanAnswer
    ensures { result ≡ flat_plan (plans.verdict volume.now plan.now) }
{
    plan::check(volume, plan).into()
}

// Where the rows of a pattern of a plan over a volume lie.
#[unsafe(no_mangle)]
pub extern "C" fn lhz_pattern_rows(volume: &[u8], plan: &[u32], pattern: u32) -> PatternRowsAnswer
    ensures { result ≡ flat_span (span_of volume.now plan.now pattern) }
{
    let span = plan::pattern_span(volume, plan, pattern);
    let start = span.start as u32;
    let len = span.len as u32;
    PatternRowsAnswer { start, len }
}

// Whether positions match a pattern of a plan in a document.
#[unsafe(no_mangle)]
pub extern "C" fn lhz_test_positions(
    volume: &[u8],
    plan: &[u32],
    pattern: u32,
    doc: u32,
    positions: &[u32],
) -> TestPositionsAnswer
    ensures { result ≡ flat_test (test_answer volume.now plan.now pattern doc positions.now) }
{
    search::test(volume, plan, pattern, doc, positions).into()
}

// Writes the rows of the true documents from document `start` on to the front of out, as many as fit.
#[unsafe(no_mangle)]
pub extern "C" fn lhz_list(volume: &[u8], plan: &[u32], start: u32, out: &mut [u32]) -> ListAnswer
    ensures { Kept volume.now plan.now start out.old result out.new }
{
    search::list(volume, plan, start, out).into()
}

// Writes the matches of a pattern of a plan in a document to the front of out, as many as fit: those
// that do not come before `from`, smaller first variable first, then second, and so on.
#[unsafe(no_mangle)]
pub extern "C" fn lhz_list_matches(
    volume: &[u8],
    plan: &[u32],
    pattern: u32,
    doc: u32,
    from: &[u32],
    out: &mut [u32],
) -> ListMatchesAnswer
    ensures { enumerations.Kept volume.now plan.now pattern doc from.now out.old result
        out.new }
{
    enumeration::matches(volume, plan, pattern, doc, from, out).into()
}

// Writes the rows of a typed line to the front of out.
#[unsafe(no_mangle)]
pub extern "C" fn lhz_line_to_plan(line: &[u8], out: &mut [u32]) -> LineToPlanAnswer
    ensures value { result ≡ flat_words (lines.read_answer line.now (length out.old)) }
    ensures out_after { out.new ≡ lines.read_out line.now out.old }
{
    line::read(line, out).into()
}

// Writes the line of a plan over a volume to the front of out.
#[unsafe(no_mangle)]
pub extern "C" fn lhz_plan_to_line(volume: &[u8], plan: &[u32], out: &mut [u8]) -> PlanToLineAnswer
    ensures value { result ≡ flat_bytes (printed.write_answer volume.now plan.now (length out.old)) }
    ensures out_after { out.new ≡ printed.write_out volume.now plan.now out.old }
{
    printer::write(volume, plan, out).into()
}
