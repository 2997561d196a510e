//! Pools of prefixes, by themselves and in the hands of agents.
use crate::answer::push_numbered;
use crate::fault::LineFault;
use grasp_cbor::OutOfMemory;
use grasp_pool::{GainFault, Pool, PoolFault, PoolImage, PrefixList, RootPrefix};
use grasp_text::{Words, prefix, push_number, push_prefix, push_word};
use grasp_types::{Address, Prefix};
use std::alloc::Global;

/// A list of a pool.
#[derive(Clone, Copy)]
enum Part {
    Free,
    Reserved,
    Doubtful,
}

/// What may be moved to threads and shared by them.
fn may_cross<T: Send + Sync>(_value: &T) {}

/// Takes the words that are left as roots: an address and a length for each.
pub fn read_roots(alloc: Global, words: &mut Words<'_>) -> Result<Vec<RootPrefix>, LineFault> {
    let mut roots = Vec::new(alloc);
    for _ in 0..words.left() {
        if words.is_over() {
            break;
        }
        roots.push(read_root(words)?)?;
    }
    Ok(roots)
}

/// Takes a root.
fn read_root(words: &mut Words<'_>) -> Result<RootPrefix, LineFault> {
    let Address::V6(address) = words.address()? else {
        return Err(LineFault::Bad);
    };
    let length = words.number(255)? as u8;
    Ok(RootPrefix { address, length })
}

/// Takes a prefix.
pub fn read_prefix(words: &mut Words<'_>) -> Result<Prefix, LineFault> {
    let (word, _) = words.next()?;
    prefix(word).ok_or(LineFault::Bad)
}

/// Takes the prefixes that stand before the word `doubt`, or before the end.
fn read_prefixes(alloc: Global, words: &mut Words<'_>) -> Result<PrefixList, LineFault> {
    let mut prefixes = PrefixList::new(alloc);
    for _ in 0..words.left() {
        if words.is_over() || words.is_next(b"doubt") {
            break;
        }
        prefixes.push(read_prefix(words)?)?;
    }
    Ok(prefixes)
}

/// Takes an image: the free prefixes, the word `doubt`, and the doubtful ones.
pub fn read_image(alloc: Global, words: &mut Words<'_>) -> Result<PoolImage, LineFault> {
    let free = read_prefixes(alloc, words)?;
    words.exactly(b"doubt")?;
    let doubtful = read_prefixes(alloc, words)?;
    Ok(PoolImage { free, doubtful })
}

/// Appends why a pool isn't opened.
pub fn push_pool_fault(out: &mut String, fault: &PoolFault) -> Result<(), OutOfMemory> {
    match fault {
        PoolFault::TooMany => push_word(out, "toomany"),
        PoolFault::BadRoot { index } => push_numbered(out, "badroot", *index),
        PoolFault::Overlap { first, second } => {
            push_numbered(out, "overlap", *first)?;
            push_number(out, *second)
        }
        PoolFault::OutOfMemory => Err(OutOfMemory),
    }
}

/// The prefix at this place of a list.
fn prefix_at(pool: &Pool, part: Part, i: u64) -> Option<Prefix> {
    match part {
        Part::Free => pool.free(i),
        Part::Reserved => pool.reserved(i),
        Part::Doubtful => pool.doubtful(i),
    }
}

/// Appends the prefixes of a list, behind its name.
fn push_part(
    alloc: Global,
    out: &mut String,
    pool: &Pool,
    name: &str,
    part: Part,
) -> Result<(), OutOfMemory> {
    push_word(out, name)?;
    for i in 0..u64::MAX {
        match prefix_at(pool, part, i) {
            Some(prefix) => push_prefix(alloc, out, prefix)?,
            None => break,
        }
    }
    Ok(())
}

/// Appends the three lists of a pool.
pub fn push_pool(alloc: Global, out: &mut String, pool: &Pool) -> Result<(), OutOfMemory> {
    push_part(alloc, out, pool, "free", Part::Free)?;
    push_part(alloc, out, pool, "reserved", Part::Reserved)?;
    push_part(alloc, out, pool, "doubt", Part::Doubtful)
}

/// Takes a call of the pool of a row, and appends its answer.
pub fn ask_pool(
    alloc: Global,
    out: &mut String,
    words: &mut Words<'_>,
    pool: &mut Option<Pool>,
) -> Result<(), LineFault> {
    let (call, _) = words.next()?;
    match call {
        b"open" => *pool = open_pool(alloc, out, words)?,
        b"reopen" => *pool = reopen_pool(alloc, out, words)?,
        _ => match pool {
            Some(pool) => ask_open(alloc, out, words, call, pool)?,
            None => return Err(LineFault::Bad),
        },
    }
    Ok(())
}

/// Opens a pool, where its roots are good.
fn open_pool(
    alloc: Global,
    out: &mut String,
    words: &mut Words<'_>,
) -> Result<Option<Pool>, LineFault> {
    let roots = read_roots(alloc, words)?;
    push_opened(out, Pool::open(alloc, roots.as_slice()))
}

/// Opens a pool with an image, where one can have it.
fn reopen_pool(
    alloc: Global,
    out: &mut String,
    words: &mut Words<'_>,
) -> Result<Option<Pool>, LineFault> {
    let image = read_image(alloc, words)?;
    push_opened(out, Pool::reopen(alloc, &image))
}

/// Appends whether a pool was opened, and gives it.
fn push_opened(
    out: &mut String,
    opened: Result<Pool, PoolFault>,
) -> Result<Option<Pool>, LineFault> {
    match opened {
        Ok(pool) => {
            may_cross(&pool);
            push_word(out, "open")?;
            Ok(Some(pool))
        }
        Err(fault) => {
            push_pool_fault(out, &fault)?;
            Ok(None)
        }
    }
}

/// Takes a call of a pool that is open.
fn ask_open(
    alloc: Global,
    out: &mut String,
    words: &mut Words<'_>,
    call: &[u8],
    pool: &mut Pool,
) -> Result<(), LineFault> {
    match call {
        b"take" => take(alloc, out, words, pool),
        b"takeat" | b"isfree" | b"isdoubtful" => push_yes(out, words, call, pool),
        b"settle" => settle(out, words, pool),
        b"gain" => gain(alloc, out, words, pool),
        b"room" => Ok(push_number(out, pool.room())?),
        b"holds" => Ok(push_pool(alloc, out, pool)?),
        _ => end_offer(out, words, call, pool),
    }
}

/// Takes a prefix of the length that comes next.
fn take(
    alloc: Global,
    out: &mut String,
    words: &mut Words<'_>,
    pool: &mut Pool,
) -> Result<(), LineFault> {
    let length = words.number(128)? as u8;
    if length == 0 {
        return Err(LineFault::Bad);
    }
    Ok(match pool.take(length) {
        Some(prefix) => push_prefix(alloc, out, prefix),
        None => push_word(out, "none"),
    }?)
}

/// Appends whether the prefix that comes next is free, or doubtful, or was reserved by this call.
fn push_yes(
    out: &mut String,
    words: &mut Words<'_>,
    call: &[u8],
    pool: &mut Pool,
) -> Result<(), LineFault> {
    let prefix = read_prefix(words)?;
    let is_so = match call {
        b"takeat" => pool.take_at(prefix),
        b"isfree" => pool.is_free(prefix),
        _ => pool.is_doubtful(prefix),
    };
    Ok(push_word(out, if is_so { "yes" } else { "no" })?)
}

/// Settles the prefix that comes next, where it is doubtful.
fn settle(out: &mut String, words: &mut Words<'_>, pool: &mut Pool) -> Result<(), LineFault> {
    let prefix = read_prefix(words)?;
    if !pool.is_doubtful(prefix) {
        return Ok(push_word(out, "undoubted")?);
    }
    pool.settle(prefix);
    Ok(push_word(out, "done")?)
}

/// Gains the prefix that comes next. Whether it would be gained is asked before.
fn gain(
    alloc: Global,
    out: &mut String,
    words: &mut Words<'_>,
    pool: &mut Pool,
) -> Result<(), LineFault> {
    let prefix = read_prefix(words)?;
    push_word(
        out,
        if pool.can_gain(prefix) {
            "can"
        } else {
            "cannot"
        },
    )?;
    Ok(push_gained(alloc, out, pool.gain(prefix).err())?)
}

/// Appends whether a prefix was gained.
fn push_gained(
    alloc: Global,
    out: &mut String,
    fault: Option<GainFault>,
) -> Result<(), OutOfMemory> {
    match fault {
        None => push_word(out, "gained"),
        Some(fault) => push_gain_fault(alloc, out, &fault),
    }
}

/// Appends why a prefix wasn't gained.
fn push_gain_fault(alloc: Global, out: &mut String, fault: &GainFault) -> Result<(), OutOfMemory> {
    match fault {
        GainFault::Overlaps { kept } => {
            push_word(out, "overlaps")?;
            push_prefix(alloc, out, *kept)
        }
        GainFault::Full => push_word(out, "full"),
    }
}

/// Ends the offer of the prefix that comes next, where it is reserved.
fn end_offer(
    out: &mut String,
    words: &mut Words<'_>,
    call: &[u8],
    pool: &mut Pool,
) -> Result<(), LineFault> {
    let prefix = read_prefix(words)?;
    if !pool.is_reserved(prefix) {
        return Ok(push_word(out, "unreserved")?);
    }
    match call {
        b"back" => pool.give_back(prefix),
        b"confirm" => pool.confirm(prefix),
        b"doubt" => pool.doubt(prefix),
        _ => return Err(LineFault::Bad),
    }
    Ok(push_word(out, "done")?)
}
