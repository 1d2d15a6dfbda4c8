//! Cases with sources that are pushed piece by piece.

ghost use Rattle.std.specs.Prelude.{◌≤◌};

use crate::outcome::Outcome;
use crate::streams::Streams;
use anyhow::{Context, Result, bail};
use std::alloc::Global;
use vx_merge::Corner;
use vx_push::{Cut, Cutter, Mixed, Mixer, are_corners, stop_line};
use vx_run::{Stop, Task};

/// The order in which pieces of several sources are pushed.
#[derive(Clone, Copy, PartialEq, Eq)]
enum Order {
    /// A piece of each source in turn.
    Turns,
    /// Of one source after another, all that is taken.
    Sources,
}

/// The state of a mixer or a cutter.
enum Step {
    Picture,
    Waits,
    Ended,
    Stopped(Stop),
}

/// A mixer or a cutter.
trait Work {
    fn next_step(&mut self) -> Step;

    /// Pushes bytes to source `k`, and returns how many were taken.
    fn hand_in(&mut self, k: usize, piece: &[u8]) -> Option<usize>;

    /// Declares that source `k` has no more bytes.
    fn end_of(&mut self, k: usize);

    /// Returns how many bytes are to be taken.
    fn count(&self) -> Option<usize>;

    fn take_into(&mut self, into: &mut [u8]) -> Option<usize>;
}

impl Work for Mixer {
    fn next_step(&mut self) -> Step {
        match self.next() {
            Mixed::Picture => Step::Picture,
            Mixed::Waits(_) => Step::Waits,
            Mixed::Ended => Step::Ended,
            Mixed::Stopped(stop) => Step::Stopped(stop),
        }
    }

    fn hand_in(&mut self, k: usize, piece: &[u8]) -> Option<usize> {
        self.push(k, piece).ok()
    }

    fn end_of(&mut self, k: usize) {
        let _ = self.end(k);
    }

    fn count(&self) -> Option<usize> {
        Some(self.picture()?.bytes)
    }

    fn take_into(&mut self, into: &mut [u8]) -> Option<usize> {
        self.take(into)
    }
}

impl Work for Cutter {
    fn next_step(&mut self) -> Step {
        match self.next() {
            Cut::Picture => Step::Picture,
            Cut::Waits => Step::Waits,
            Cut::Ended => Step::Ended,
            Cut::Stopped(stop) => Step::Stopped(stop),
        }
    }

    fn hand_in(&mut self, _k: usize, piece: &[u8]) -> Option<usize> {
        Some(self.push(piece))
    }

    fn end_of(&mut self, _k: usize) {
        self.end();
    }

    fn count(&self) -> Option<usize> {
        Some(self.picture()?.bytes)
    }

    fn take_into(&mut self, into: &mut [u8]) -> Option<usize> {
        self.take(into)
    }
}

/// The most steps, each of which pushes bytes or takes a picture.
const MOST_STEPS: u32 = 1 << 26;

/// Does `LENGTH ORDER merge [--level N] X,Y=NAME ..` or `LENGTH ORDER extract [--tid T] [--level N] INDEX NAME`.
pub(crate) fn pushed(alloc: Global, streams: &Streams, words: &[&str]) -> Result<Outcome> {
    let [length, order, command, words @ ..] = words else {
        bail!("no command");
    };
    let length = length.parse::<usize>()?;
    let order = order_of(order)?;
    match *command {
        "merge" => merged(alloc, streams, length, order, words),
        "extract" => extracted(alloc, streams, length, order, words),
        _ => bail!("neither a merge nor an extraction"),
    }
}

fn order_of(word: &str) -> Result<Order> {
    match word {
        "turns" => Ok(Order::Turns),
        "sources" => Ok(Order::Sources),
        _ => bail!("no order"),
    }
}

/// Returns the number of an option, if the words begin with it, and the other words.
fn option_first<'a, 'b>(words: &'a [&'b str], option: &str) -> Result<(Option<u8>, &'a [&'b str])> {
    match words {
        [first, number, rest @ ..] if *first == option => Ok((Some(number.parse::<u8>()?), rest)),
        _ => Ok((None, words)),
    }
}

/// Merges sources that are pushed in pieces of this length.
fn merged(
    alloc: Global,
    streams: &Streams,
    length: usize,
    order: Order,
    words: &[&str],
) -> Result<Outcome> {
    let (level, words) = option_first(words, "--level")?;
    let corners = corners_of(alloc, words)?;
    let mut rests = Vec::new(alloc);
    for word in words {
        rests.push(streams.get(placing(word)?.1)?.as_slice())?;
    }
    mixed(alloc, &corners, level, &mut rests, length, order)
}

/// Mixes sources that are pushed so.
fn mixed(
    alloc: Global,
    corners: &[Corner],
    level: Option<u8>,
    rests: &mut Vec<&[u8]>,
    length: usize,
    order: Order,
) -> Result<Outcome> {
    if !are_corners(corners) {
        bail!("no corners");
    }
    let mut mixer = Mixer::new(alloc, corners, level)?;
    outcome_of(alloc, &mut mixer, rests, length, order)
}

/// Extracts from a source that is pushed in pieces of this length.
fn extracted(
    alloc: Global,
    streams: &Streams,
    length: usize,
    order: Order,
    words: &[&str],
) -> Result<Outcome> {
    let (tid, words) = option_first(words, "--tid")?;
    let (level, words) = option_first(words, "--level")?;
    let [target, name] = words else {
        bail!("an extraction has an index and a source");
    };
    let task = Task {
        target: target.parse::<u32>()?,
        level,
        tid: tid.unwrap_or(6).min(6),
    };
    let mut rests = Vec::new(alloc);
    rests.push(streams.get(name)?.as_slice())?;
    cut(alloc, task, &mut rests, length, order)
}

/// Cuts a subpicture out of a source that is pushed so.
fn cut(
    alloc: Global,
    task: Task,
    rests: &mut Vec<&[u8]>,
    length: usize,
    order: Order,
) -> Result<Outcome>
    requires { task.tid ≤ 6 }
{
    let mut cutter = Cutter::new(alloc, task)?;
    outcome_of(alloc, &mut cutter, rests, length, order)
}

/// Parses `X,Y=NAME` into the corner and the name.
fn placing(word: &str) -> Result<(Corner, &str)> {
    let (place, name) = word.split_once('=').context("no name")?;
    let (x, y) = place.split_once(',').context("no corner")?;
    let corner = Corner {
        x: x.parse::<u32>()?,
        y: y.parse::<u32>()?,
    };
    Ok((corner, name))
}

fn corners_of(alloc: Global, words: &[&str]) -> Result<Vec<Corner>> {
    let mut corners = Vec::new(alloc);
    for word in words {
        corners.push(placing(word)?.0)?;
    }
    Ok(corners)
}

/// Pushes the sources until there are no more pictures, and returns the result.
fn outcome_of<W: Work>(
    alloc: Global,
    work: &mut W,
    rests: &mut Vec<&[u8]>,
    length: usize,
    order: Order,
) -> Result<Outcome> {
    let mut out = Vec::new(alloc);
    for _ in 0..MOST_STEPS {
        match work.next_step() {
            Step::Picture => take(alloc, work, &mut out)?,
            Step::Waits => hand_in_each(work, rests, length, order)?,
            Step::Ended => return ended(alloc, None, out),
            Step::Stopped(stop) => return ended(alloc, Some(stop), out),
        }
    }
    bail!("no end")
}

/// Returns the status and the line of a program that ends so.
fn ended(alloc: Global, stop: Option<Stop>, out: Vec<u8>) -> Result<Outcome> {
    let (status, err) = match stop {
        None => (0, Vec::new(alloc)),
        Some(stop @ Stop::Refused { .. }) => (1, stop_line(alloc, stop)?),
        Some(stop) => (4, stop_line(alloc, stop)?),
    };
    Ok(Outcome { status, err, out })
}

/// Takes the picture that is held.
fn take<W: Work>(alloc: Global, work: &mut W, out: &mut Vec<u8>) -> Result<()> {
    let count = work.count().context("no picture")?;
    let mut bytes = vec![in alloc; 0_u8; count]?;
    work.take_into(&mut bytes).context("no room")?;
    out.extend_from_slice(&bytes)?;
    Ok(())
}

/// Pushes more of each source.
fn hand_in_each<W: Work>(
    work: &mut W,
    rests: &mut Vec<&[u8]>,
    length: usize,
    order: Order,
) -> Result<()> {
    for k in 0..rests.len() {
        let most = match order {
            Order::Turns => 1,
            Order::Sources => MOST_STEPS,
        };
        rests[k] = hand_in(work, k, rests[k], length, most)?;
    }
    Ok(())
}

/// Pushes at most this many pieces of source `k`, as long as any are taken, and its end if nothing is left; returns what is left.
fn hand_in<'a, W: Work>(
    work: &mut W,
    k: usize,
    mut rest: &'a [u8],
    length: usize,
    most: u32,
) -> Result<&'a [u8]> {
    for _ in 0..most {
        if rest.is_empty() {
            work.end_of(k);
            return Ok(rest);
        }
        let piece = &rest[..rest.len().min(length)];
        let count = work.hand_in(k, piece).context("no source")?;
        if count == 0 {
            return Ok(rest);
        }
        rest = rest.get(count..).context("more was taken than handed in")?;
    }
    Ok(rest)
}
