// The whole job of the listing program: from the bytes of its input, a facts line and a frame, to the bytes of its output.
#![tactic(auto)]

mod facts;

ghost use Rattle.std.specs.Prelude.{min, length, take};
ghost use Rattle.listing.specs.Put.{Texted, fitted};
ghost use Rattle.listing.specs.Listed.{listing, listing_refusal};
ghost use Rattle.listing_job.specs.Job.{job_text, header_text, sections_text};

use bits::Refusal;
use facts::facts_line;
use grid::Frame;
use header::Facts;
use toc::TocRead;

// The listing of a table that was read.
fn list_table(
    f: Frame,
    count: u32,
    offsets: &[u64],
    sizes: &[u32],
    order: &[u32],
    out: &mut [u8],
) -> Result<usize, Refusal>
    ensures { Texted (listing_refusal f offsets.now sizes.now (take (min count (length order.now)) order.now) out.old)
        (listing f offsets.now sizes.now (take (min count (length order.now)) order.now)) out.old result out.new }
{
    let n = order.len().min(count as usize);
    listing::write_listing(f, offsets, sizes, &order[..n], out)
}

// From the section table on: four tables of 1,024 words (no heap), so that more sections are 3.
fn list_sections(s: &[u8], f: Frame, place: u64, out: &mut [u8]) -> Result<usize, Refusal>
    ensures { Texted (fitted (sections_text s.now f place) out.old) (sections_text s.now f place) out.old result out.new }
{
    let mut offsets = [0u64; 1024];
    let mut sizes = [0u32; 1024];
    let mut order = [0u32; 1024];
    let mut inverse = [0u32; 1024];
    let read = toc::read_toc(
        s,
        f,
        place,
        &mut offsets,
        &mut sizes,
        &mut order,
        &mut inverse,
    );
    let t = match read {
        Ok(t) => t,
        Err(r) => return listing::write_refused(r, out),
    };
    match t {
        TocRead::Table(x) => list_table(f, x.count, &offsets, &sizes, &order, out),
        TocRead::OrderNeeded(p) => listing::write_order_needed(p, out),
    }
}

// From the header on.
fn list_header(s: &[u8], facts: Facts, out: &mut [u8]) -> Result<usize, Refusal>
    ensures { Texted (fitted (header_text s.now facts) out.old) (header_text s.now facts) out.old result out.new }
{
    let mut name = [0u8; 1071];
    let mut upsampling = [0u32; 256];
    let mut blending = [0u32; 1024];
    match header::read_frame_header(s, facts, &mut name, &mut upsampling, &mut blending) {
        Ok(h) => list_sections(s, h.header.frame(), h.end, out),
        Err(refusal) => listing::write_refused(refusal, out),
    }
}

// The frame's bytes, of which the first 32,768 are used.
fn list_bytes(rest: &[u8], facts: Facts, out: &mut [u8]) -> Result<usize, Refusal>
    ensures { Texted (fitted (header_text (take 32768 rest.now) facts) out.old) (header_text (take 32768 rest.now) facts) out.old result out.new }
{
    let n = rest.len().min(32768);
    list_header(&rest[..n], facts, out)
}

// The job: a bad line or bad facts are 1, then the header's faults, 9, 10, 3 over 1,024 sections, the flag and the rest. The answer itself
// is refused with 3 where the text doesn't fit into the lent bytes; what the program refuses of a frame is in the text.
pub fn list_frame(input: &[u8], out: &mut [u8]) -> Result<usize, Refusal>
    ensures { Texted (fitted (job_text input.now) out.old) (job_text input.now) out.old result out.new }
{
    let Some(line) = facts_line(input) else {
        return listing::write_refused(bits::refused(1, 0), out);
    };
    list_bytes(&input[line.next..], line.facts, out)
}
