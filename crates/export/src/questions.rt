// The questions on a header, over the numbers of its words that they need. A question refuses nothing; of a number that names no frame type it
// answers no.
ghost use Rattle.std.specs.Prelude.{◌≡◌};
ghost use Rattle.types.specs.Types.{noise, patches, splines, use_lf_frame, skip_adaptive_lf_smoothing};
ghost use Rattle.export.specs.Asked.{keyframe, referable};

use types::FrameFlags;

// Whether the frame is shown: normal, and the last or of some duration.
pub fn hingevale_is_keyframe(frame_type: u32, is_last: bool, duration: u32) -> bool
    ensures { result ≡ keyframe frame_type is_last duration }
{
    let normal = frame_type == 0 || frame_type == 3;
    normal && (is_last || duration != 0)
}

// Whether other frames can refer to it: not the last, of no duration or saved, and no LF frame.
pub fn hingevale_can_reference(
    frame_type: u32,
    is_last: bool,
    duration: u32,
    save_as_reference: u32,
) -> bool
    ensures { result ≡ referable frame_type is_last duration save_as_reference }
{
    let other = frame_type <= 3 && frame_type != 1;
    let kept = duration == 0 || save_as_reference != 0;
    !is_last && kept && other
}

// The flag questions.
pub fn hingevale_noise(flags: u64) -> bool
    ensures { result ≡ noise flags }
{
    FrameFlags(flags).noise()
}

pub fn hingevale_patches(flags: u64) -> bool
    ensures { result ≡ patches flags }
{
    FrameFlags(flags).patches()
}

pub fn hingevale_splines(flags: u64) -> bool
    ensures { result ≡ splines flags }
{
    FrameFlags(flags).splines()
}

pub fn hingevale_use_lf_frame(flags: u64) -> bool
    ensures { result ≡ use_lf_frame flags }
{
    FrameFlags(flags).use_lf_frame()
}

pub fn hingevale_skip_adaptive_lf_smoothing(flags: u64) -> bool
    ensures { result ≡ skip_adaptive_lf_smoothing flags }
{
    FrameFlags(flags).skip_adaptive_lf_smoothing()
}
