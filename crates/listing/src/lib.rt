// The listing of a cast: what standard input asks, converted and written as text into a lent buffer.
#![tactic(auto)]

ghost use Rattle.std.specs.Prelude.{◌≡◌, ◌≤◌, length, take};
ghost use Rattle.text.specs.Wrote.{Wrote};
ghost use Rattle.listing_input.specs.Input.{chunk_of};
ghost use Rattle.listing.specs.Listing.{report_of, listing_of, Listed};
ghost use Rattle.listing.specs.Room.{CallFits};

// Converts a chunk by listed kinds into work and puts the report, and returns the place after it.
fn put_call(
    src: &[u8],
    keys: &[u8],
    targets: &[u8],
    from: u8,
    to: u8,
    rounding: u8,
    range: u8,
    work: &mut [u8],
    out: &mut [u8],
) -> usize
    requires { CallFits src.now from to work.old out.old }
    ensures { Wrote out.old 0 (report_of (chunk_of src.now keys.now targets.now from to rounding range)) result out.new }
{
    let n = src.len() / kinds::row_of(from).bytes;
    let w = kinds::row_of(to).bytes;
    let size = n * w;
    let reply = chunk::convert(
        src,
        &mut work[..size],
        keys,
        targets,
        from,
        to,
        rounding,
        range,
    );
    report::put_report(out, &work[..size], reply.answer, n, w)
}

// Puts the listing of an input into a buffer that is long enough, and returns its length.
fn put_listing(input: &[u8], work: &mut [u8], out: &mut [u8]) -> usize
    requires { (65488 ≤ length work.old) × (139180 ≤ length out.old) }
    ensures { Wrote out.old 0 (listing_of input.now) result out.new }
{
    let checked = listing_input::refusal(input);
    if checked.is_err() {
        return report::put_refused(out, answer_numbers::number(checked) as usize, 0);
    }
    let l = listing_input::layout_of(input);
    let targets = l.targets;
    let elements = l.elements;
    put_call(
        &input[elements..],
        &input[6..targets],
        &input[targets..elements],
        input[0],
        input[1],
        input[2],
        input[3],
        work,
        out,
    )
}

// Room for 8,186 elements of 8 bytes: as many as an input can have.
pub type Work = [u8; 65488];

// Room for a first line of 18 bytes and 8,186 lines of 17.
pub type Lines = [u8; 139180];

// What is read of standard input: the 8,192 bytes that are taken, and one that tells that there are more.
pub type Input = [u8; 8193];

// Lists an input: the listing stands at the start of out, whose other bytes stay, and its length is returned. What then stands in work is
// left free.
pub fn list(input: &[u8], work: &mut Work, out: &mut Lines) -> usize
    ensures listed { Listed input.now out.old result out.new }
    ensures work_len { length work.new ≡ 65488 }
{
    put_listing(input, work, out)
}

// Lists the first n bytes of what was read; all of it where n is larger.
fn list_first(input: &[u8], n: usize, work: &mut Work, out: &mut Lines) -> usize
    ensures listed { Listed (take n input.now) out.old result out.new }
    ensures work_len { length work.new ≡ 65488 }
{
    if n < input.len() {
        return list(&input[..n], work, out);
    }
    list(input, work, out)
}

// The same of a buffer that has room for the byte that tells longer input; its type sees to that.
pub fn list_read(input: &Input, n: usize, work: &mut Work, out: &mut Lines) -> usize
    ensures listed { Listed (take n input.now) out.old result out.new }
    ensures work_len { length work.new ≡ 65488 }
{
    list_first(input, n, work, out)
}
