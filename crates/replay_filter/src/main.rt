// Runs stored vectors through the crate `filter` and prints what it answers, a line a record.
// A record is 96 bytes: four words and 80 bytes of input. Word 0: 0 to 3 the bundle (1: asked for, 2: Modular), 4 the weights test on
// words 1 and 2. For the bundle, words 1 to 3: the bit place, how many bytes are lent, and a fault that the cursor has already.
// A line: the fault, its place, the cursor's place, the 25 values where nothing was refused, and all of them in one number.
#![tactic(auto)]

use replay::{Output, Tally};
use std::io;

fn main(rt: HostRuntime) -> io::Result<()> {
    let mut input = rt.stdin();
    let mut out = replay::buffered(rt.alloc(), rt.stdout())?;
    let mut r = [0u8; 96];
    for _ in 0..100000u32 {
        if input::read_full(&mut input, &mut r)? != 96 {
            break;
        }
        record(&mut out, &r);
    }
    out.finish()
}

fn record(out: &mut Output, r: &[u8; 96]) {
    let [what, one, two, fault] = replay::four(r, 0);
    let end = 16 + (two % 81) as usize;
    let n = match what {
        0..=3 => bundle(out, &r[16..end], what, u64::from(one), fault),
        _ => u64::from(filter::is_unbalanced(one, two)),
    };
    out.decimal(n);
    out.end();
}

fn bundle(out: &mut Output, s: &[u8], what: u32, place: u64, fault: u32) -> u64 {
    let c = bits::refuse_if(bits::begin(place), fault != 0, fault, place);
    let f = filter::read_restoration_filter_if(s, c, what % 2 == 1, 1 < what);
    let refusal = f.next.fault;
    out.refusal(refusal);
    out.show(f.next.at);
    let gab = f.value.gab;
    let epf = f.value.epf;
    let p = epf.params;
    let last = [
        p.quant_mul,
        p.pass0_sigma_scale,
        p.pass2_sigma_scale,
        p.border_sad_mul,
        p.sigma_for_modular,
    ];
    let mut all = Tally {
        big: false,
        full: refusal.number == 0,
        sum: 0,
    };
    all.add_shown(out, &[u32::from(gab.enabled())]);
    all.add_shown(out, &gab.weights);
    all.add_shown(out, &[u32::from(epf.enabled()), epf.iters]);
    all.add_shown(out, &p.sharp_lut);
    all.add_shown(out, &p.channel_scale);
    all.add_shown(out, &last);
    all.sum
}
