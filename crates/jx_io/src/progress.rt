//! How far a run is, for people: one line on standard error that is written over.

ghost use Rattle.std.specs.Prelude.{◌≡◌, ◌≢◌, false, IfErr, IfOk, None, Some, codes, string_bytes};
ghost use Rattle.std.specs.Str.{bytes_eq};
ghost use Rattle.jx_io.specs.Shown.{grouped, last_three, progress_text};

use crate::gate::Gate;
use std::alloc::{AllocError, Global};
use std::env::VarError;
use std::fmt;
use std::fmt::{Display, Formatter};
use std::io::Eprint;
use std::sync::atomic::Ordering::SeqCst;
use std::sync::atomic::{AtomicU32, AtomicU64};
use std::time::{Clock, Instant};

/// A number's last three digits.
#[derive(Clone, Copy)]
struct LastThree(u32);

impl Display for LastThree {
    ghost output = { λ n. Some (last_three n.0) };

    fn fmt<W: fmt::Write>(&self, f: &mut Formatter<W>) -> fmt::Result {
        let n = self.0;
        write!(f, "{}{}{}", n / 100 % 10, n / 10 % 10, n % 10)
    }
}

/// A number with its digits in threes.
#[derive(Clone, Copy)]
struct Grouped(u32);

impl Display for Grouped {
    ghost output = { λ n. Some (grouped n.0) };

    fn fmt<W: fmt::Write>(&self, f: &mut Formatter<W>) -> fmt::Result {
        let n = self.0;
        let low = LastThree(n);
        let mid = LastThree(n / 1000);
        if n < 1000 {
            write!(f, "{n}")
        } else if n < 1_000_000 {
            write!(f, "{},{low}", n / 1000)
        } else if n < 1_000_000_000 {
            write!(f, "{},{mid},{low}", n / 1_000_000)
        } else {
            let high = LastThree(n / 1_000_000);
            write!(f, "{},{high},{mid},{low}", n / 1_000_000_000)
        }
    }
}

/// That so many code-blocks of all are coded anew.
pub fn progress_line(alloc: Global, done: u32, all: u32) -> Result<String, AllocError>
    ensures { IfOk result (λ line. string_bytes line ≡ progress_text done all) }
{
    let done = Grouped(done);
    let all = Grouped(all);
    format!(in alloc; "recoding {done} of {all} blocks")
}

/// A gate that shows how many of the blocks that are coded anew are done, at most ten times in a second, from the
/// second second of its run on. A clock or a standard error that fails shows nothing.
#[derive(Drop)]
pub struct Progress<'a, R> {
    rt: &'a R,
    alloc: Global,
    // When it began; nothing where nobody asked for it.
    began: Option<Instant>,
    all: AtomicU32,
    done: AtomicU32,
    // The tenth of a second in which a line was last shown, 0 before.
    shown: AtomicU64,
}

impl<'a, R: Clock + Eprint> Progress<'a, R> {
    /// From now on, where it is asked for.
    pub fn new(rt: &'a R, alloc: Global, is_asked: bool) -> Progress<'a, R>
        ensures unasked { is_asked ≡ false → result.began ≡ None }
    {
        let began = if is_asked {
            Instant::now(rt).ok()
        } else {
            None
        };
        Progress {
            rt,
            alloc,
            began,
            all: AtomicU32::new(0),
            done: AtomicU32::new(0),
            shown: AtomicU64::new(0),
        }
    }

    // Whether this call is the one that shows a line in this tenth of a second.
    fn is_turn(&self) -> bool {
        let Some(began) = self.began else {
            return false;
        };
        let Ok(elapsed) = began.elapsed(self.rt) else {
            return false;
        };
        let tenth = elapsed
            .as_secs()
            .saturating_mul(10)
            .saturating_add(u64::from(elapsed.subsec_millis() / 100));
        tenth >= 10 && self.shown.fetch_max(tenth, SeqCst) < tenth
    }

    fn line(&self) -> Result<String, AllocError> {
        let done = self.done.load(SeqCst);
        let all = self.all.load(SeqCst);
        progress_line(self.alloc, done, all)
    }
}

impl<'a, R: Clock + Eprint> Gate for Progress<'a, R> {
    fn begin(&self, blocks: u32) {
        self.all.store(blocks, SeqCst);
    }

    fn enter(&self, _block: u32) {}

    fn leave(&self, _block: u32) {
        self.done.fetch_add(1, SeqCst);
        if self.is_turn() {
            if let Ok(line) = self.line() {
                let _ = eprint!(self.rt; "\r{line}");
            }
        }
    }

    // Takes away the line that was shown.
    fn end(&self) {
        if self.shown.load(SeqCst) == 0 {
            return;
        }
        if let Ok(line) = self.line() {
            let _ = eprint!(self.rt; "\r{:w$}\r", "", w = line.len());
        }
    }
}

/// Whether progress is asked for, by what is found of the variable JX_PROGRESS: it says 1, or isn't there while somebody looks on.
pub fn is_asked(found: &Result<String, VarError>, is_watched: bool) -> bool
    ensures there { IfOk found.now (λ value. result ≡ bytes_eq (string_bytes value) (codes "1")) }
    ensures missing { IfErr found.now (λ error. error ≡ VarError.NotPresent → result ≡ is_watched) }
    ensures unread { IfErr found.now (λ error. error ≢ VarError.NotPresent → result ≡ false) }
{
    match found {
        Ok(value) => value.as_str() == "1",
        Err(VarError::NotPresent) => is_watched,
        Err(_) => false,
    }
}
