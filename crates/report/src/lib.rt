// What a chunk call reports: a first line, then a line for each converted element.
#![tactic(auto)]

ghost use Rattle.std.specs.Prelude.{◌<◌, ◌≤◌, length, take, drop};
ghost use Rattle.bytes_le.specs.Bytes.{from_le};
ghost use Rattle.text.specs.Wrote.{Wrote};
ghost use Rattle.report.specs.Report.{ok_line, refused_line, line, lines, report};
ghost use Rattle.report.specs.Room.{LineFits, LinesFit, ReportFits};

use answers::Answer;

// Puts the first line of a call that converts all n elements, and returns the place after it.
fn put_ok(out: &mut [u8], n: usize) -> usize
    requires { (n < 10000) × (8 ≤ length out.old) }
    ensures { Wrote out.old 0 (ok_line n) result out.new }
{
    let told = text::put_text(out, 0, b"ok ");
    let end = text::put_decimal(out, told, n);
    text::put_byte(out, end, b'\n')
}

// Puts the first line of a refusal, with the position of those that name one, and returns the place after it.
pub fn put_refused(out: &mut [u8], number: usize, position: usize) -> usize
    requires { (number < 10) × (position < 10000) × (18 ≤ length out.old) }
    ensures { Wrote out.old 0 (refused_line number position) result out.new }
{
    let told = text::put_text(out, 0, b"refused ");
    let end = text::put_decimal(out, told, number);
    if !answer_numbers::names_position(number) {
        return text::put_byte(out, end, b'\n');
    }
    let there = text::put_text(out, end, b" at ");
    let last = text::put_decimal(out, there, position);
    text::put_byte(out, last, b'\n')
}

// Puts the line of the element of w bytes at a place of bytes, and returns the place after it.
fn put_element(out: &mut [u8], at: usize, bytes: &[u8], from: usize, w: usize) -> usize
    requires { LineFits out.old at bytes.now from w }
    ensures { Wrote out.old at (line w (from_le (take w (drop from bytes.now)))) result out.new }
{
    let v = bytes_le::read_le(bytes, from, w);
    let end = text::put_digits(out, at, 16, 2 * w, v);
    text::put_byte(out, end, b'\n')
}

// Puts the lines of the first k elements, and returns the place after them.
fn put_elements(out: &mut [u8], at: usize, bytes: &[u8], w: usize, k: usize) -> usize
    requires { LinesFit out.old at bytes.now w k }
    ensures { Wrote out.old at (lines w bytes.now 0 k) result out.new }
{
    let mut to = at;
    for i in 0..k {
        to = put_element(out, to, bytes, i * w, w);
    }
    to
}

// Puts what an answer to a call of n elements reports, with the destination's bytes, and returns the place after it.
pub fn put_report(out: &mut [u8], bytes: &[u8], answer: Answer, n: usize, w: usize) -> usize
    requires { ReportFits out.old bytes.now answer n w }
    ensures { Wrote out.old 0 (report answer n w bytes.now) result out.new }
{
    if answer.is_ok() {
        let at = put_ok(out, n);
        return put_elements(out, at, bytes, w, n);
    }
    let number = answer_numbers::number(answer) as usize;
    let position = answer_numbers::position(answer).unwrap_or(0);
    let at = put_refused(out, number, position);
    put_elements(out, at, bytes, w, position)
}
