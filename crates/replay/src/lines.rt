// Numbers on a program's output. The clauses say what a writer gains whose bytes are known. Of standard output no clause
// can say it; what a program writes is compared with its file `stdout`.
ghost use Rattle.std.specs.Prelude.{◌≡◌, [], ◌∷◌, ◌++◌, true, Err, IfOk, IfErr, IsOk, OnOk};
ghost use Rattle.std.specs.Fmt.{decimal};
ghost use Rattle.std.specs.Io.Buffered.{writer_buffer, writer_inner};
ghost use Rattle.std.specs.IoError.{error_kind};
ghost use Rattle.replay.specs.Outputs.{refusal_in, shown, shown_by, Gains};

use crate::sums::Summand;
use bits::Refusal;
use std::alloc::Global;
use std::io;
use std::io::{BufWriter, ErrorKind, Stdout, Write};

// Where numbers go, and the first error that writing gave: after it no more is taken.
#[derive(Drop)]
pub struct Output<W = BufWriter<Stdout>> {
    to: W,
    failed: io::Result<()>,
}

// The refusal of an answer, or none: the lines show a number 0 where nothing is refused.
pub fn refusal_of<T: Copy>(answer: Result<T, Refusal>) -> Refusal
    ensures { result ≡ refusal_in answer }
{
    match answer {
        Ok(_) => bits::accepted(),
        Err(refusal) => refusal,
    }
}

// Standard output, with a buffer in front.
pub fn buffered(alloc: Global, to: Stdout) -> io::Result<Output>
    ensures intact { IfOk result (λ out. IsOk out.failed) }
    ensures inner { IfOk result (λ out. writer_inner out.to ≡ to) }
    ensures empty { IfOk result (λ out. writer_buffer out.to ≡ []) }
    ensures err { IfErr result (λ e. error_kind e ≡ ErrorKind.OutOfMemory) }
{
    Ok(Output {
        to: BufWriter::new(alloc, to)?,
        failed: Ok(()),
    })
}

impl<W: Write> Output<W> {
    // Some bytes.
    pub fn text(&mut self, text: &[u8])
        ensures { Gains W.contents self.old text.now self.new }
    {
        if self.failed.is_ok() {
            self.failed = self.to.write_all(text);
        }
    }

    // A number, with nothing behind it.
    pub fn decimal(&mut self, n: u64)
        ensures { Gains W.contents self.old (decimal n) self.new }
    {
        if self.failed.is_ok() {
            self.failed = write!(self.to, "{n}");
        }
    }

    // A number and a tab.
    pub fn show(&mut self, n: u64)
        ensures { Gains W.contents self.old (shown n) self.new }
    {
        self.decimal(n);
        self.text(b"\t");
    }

    // Each of some numbers and a tab.
    #[tactic(auto, using(crate::proofs::Gaining::gains_more))]
    pub fn cells<T: Summand>(&mut self, xs: &[T])
        ensures { Gains W.contents self.old (shown_by T.number_of true xs.now) self.new }
    {
        for x in xs {
            self.show(x.number());
        }
    }

    // A refusal's number and its place.
    pub fn refusal(&mut self, r: Refusal)
        ensures { Gains W.contents self.old (shown r.number ++ shown r.place) self.new }
    {
        self.show(u64::from(r.number));
        self.show(r.place);
    }

    // The end of a line.
    pub fn end(&mut self)
        ensures { Gains W.contents self.old (10 ∷ []) self.new }
    {
        self.text(b"\n");
    }

    // The first error; where there is none, what the buffer holds is written out.
    pub fn finish(mut self) -> io::Result<()>
    where
        W: Drop,
        ensures ok { OnOk result (IsOk self.failed) }
        ensures err { IfErr self.failed (λ e. result ≡ Err e) }
    {
        self.failed?;
        self.to.flush()
    }
}
