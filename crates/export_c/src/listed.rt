// The listing: from the bytes of a facts line and a frame to the bytes of the text.
ghost use Rattle.std.specs.Prelude.{◌≡◌, eqb, ltb, length, set};
ghost use Rattle.bits.specs.Refusals.{pick};
ghost use Rattle.listing_job.specs.Job.{job_text};
ghost use Rattle.c_words.specs.Status.{status_of};
ghost use Rattle.export.specs.Told.{untold, Told};

// What the program `list` writes for an input; 3 where a lent slice is too short.
#[unsafe(no_mangle)]
pub extern "C" fn hingevale_list(input: &[u8], text: &mut [u8], out: &mut [u64]) -> u64
    ensures { Told (untold (ltb (length out.old) 1) (job_text input.now) text.old) (job_text input.now) text.old text.new out.old out.new result }
{
    export::hingevale_list(input, text, out)
}
