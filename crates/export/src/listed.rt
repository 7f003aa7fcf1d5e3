// The listing: from the bytes of a facts line and a frame to the bytes of the text.
ghost use Rattle.std.specs.Prelude.{ltb, length};
ghost use Rattle.listing_job.specs.Job.{job_text};
ghost use Rattle.export.specs.Told.{untold, Told};

use c_words::status;

// What the program `list` writes for an input; 3 where a lent slice is too short.
pub fn hingevale_list(input: &[u8], text: &mut [u8], out: &mut [u64]) -> u64
    ensures { Told (untold (ltb (length out.old) 1) (job_text input.now) text.old) (job_text input.now) text.old text.new out.old out.new result }
{
    if out.len() < 1 {
        return status(bits::refused(3, 0));
    }
    match listing_job::list_frame(input, text) {
        Ok(length) => {
            fill::put(out, 0, length as u64);
            status(bits::accepted())
        }
        Err(refusal) => status(refusal),
    }
}
