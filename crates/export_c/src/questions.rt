// The questions on a header, over the numbers of its words that they need. A question refuses nothing; of a number that names no frame type it
ghost use Rattle.std.specs.Prelude.{◌≡◌};
ghost use Rattle.types.specs.Types.{noise, patches, splines, use_lf_frame, skip_adaptive_lf_smoothing};
ghost use Rattle.export.specs.Asked.{keyframe, referable};

// Whether the frame is shown: normal, and the last or of some duration.
#[unsafe(no_mangle)]
pub extern "C" fn hingevale_is_keyframe(frame_type: u32, is_last: bool, duration: u32) -> bool
    ensures { result ≡ keyframe frame_type is_last duration }
{
    export::hingevale_is_keyframe(frame_type, is_last, duration)
}

// Whether other frames can refer to it: not the last, of no duration or saved, and no LF frame.
#[unsafe(no_mangle)]
pub extern "C" fn hingevale_can_reference(
    frame_type: u32,
    is_last: bool,
    duration: u32,
    save_as_reference: u32,
) -> bool
    ensures { result ≡ referable frame_type is_last duration save_as_reference }
{
    export::hingevale_can_reference(frame_type, is_last, duration, save_as_reference)
}

// The flag questions.
#[unsafe(no_mangle)]
pub extern "C" fn hingevale_noise(flags: u64) -> bool
    ensures { result ≡ noise flags }
{
    export::hingevale_noise(flags)
}

#[unsafe(no_mangle)]
pub extern "C" fn hingevale_patches(flags: u64) -> bool
    ensures { result ≡ patches flags }
{
    export::hingevale_patches(flags)
}

#[unsafe(no_mangle)]
pub extern "C" fn hingevale_splines(flags: u64) -> bool
    ensures { result ≡ splines flags }
{
    export::hingevale_splines(flags)
}

#[unsafe(no_mangle)]
pub extern "C" fn hingevale_use_lf_frame(flags: u64) -> bool
    ensures { result ≡ use_lf_frame flags }
{
    export::hingevale_use_lf_frame(flags)
}

#[unsafe(no_mangle)]
pub extern "C" fn hingevale_skip_adaptive_lf_smoothing(flags: u64) -> bool
    ensures { result ≡ skip_adaptive_lf_smoothing flags }
{
    export::hingevale_skip_adaptive_lf_smoothing(flags)
}
