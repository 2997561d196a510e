//! Taking an item byte by byte, without memory, up to its end or the first byte that no item has there.

ghost use Rattle.std.specs.Prelude.{◌≡◌, ℕ, ◌+◌, ◌<◌, ◌≤◌, ◌/◌, ◌%◌, ◌-◌, ◌*◌, List, [], ◌∷◌, ◌++◌, length, slice_index, take, None, Some, Option, Result};
ghost use Rattle.grasp_cbor.specs.Front.{start_name, chunk_name, can_break, body_of, some_parts};
ghost use Rattle.grasp_cbor.specs.Room.{levels_of, levels_at};
ghost use Rattle.grasp_cbor.specs.Step.{after_head, broken, ended, level_after, finished, first_name, goes, heads, is_simple, levels_in, opened};
ghost use Rattle.grasp_cbor.specs.Step.{step, whole, width_of};
ghost use Rattle.grasp_cbor.specs.declared.walker.Stage.TheVariants.{Beginning, Heading, InBytes, InText};

use crate::heads::{Major, StringKind};
use crate::utf8::{Owed, READY, after_byte};

/// What is wrong with a byte.
#[derive(Clone, Copy, Debug, PartialEq, Eq)]
pub enum FaultName {
    /// An initial byte that is reserved or has indefinite length in a major type that has none; a break where nothing of
    /// indefinite length is innermost, or where a key waits for its value; in a string of indefinite length what is neither
    /// a chunk of its kind nor a break; the number of a simple value in two bytes that is below 32.
    Malformed,
    /// An initial byte of an array, a map or a tag inside 16 of these.
    TooDeep,
    /// A byte of a text, or of a chunk of one, that no UTF-8 of the stated length has there.
    NotText,
}

/// What a byte made of the bytes before it.
#[derive(Clone, Copy, Debug, PartialEq, Eq)]
pub enum Taken {
    /// They can go on.
    More,
    /// They are an item.
    Whole,
}

/// Why bytes are no item.
#[derive(Clone, Copy, Debug, PartialEq, Eq)]
pub(crate) enum WalkFault {
    /// The byte at this place, counted from the item's first byte.
    Bad(FaultName, u64),
    /// As many bytes as are allowed are no item yet.
    TooLong,
}

/// What a list, a map or a tag that is open waits for.
#[derive(Clone, Copy)]
enum Level {
    /// So many parts.
    Parts(u128),
    /// Items, or a break.
    Items,
    /// A key, or a break.
    Keys,
    /// The value of the last key.
    Values,
}

/// What the next byte belongs to.
#[derive(Clone, Copy)]
enum Stage {
    Beginning,
    Heading(Major, bool, u64, u8),
    InBytes(u64),
    InText(Owed, u64),
}

/// Takes items byte by byte, and no memory. At most 17 levels are open: 16 lists, maps and tags, and in the innermost a
/// string of indefinite length.
#[derive(Drop)]
pub(crate) struct Walk {
    limit: u64,
    taken: u64,
    depth: u8,
    levels: [Level; 16],
    string: Option<StringKind>,
    stage: Stage,
    ghost in_range: { depth + levels_at stage ≤ 16 },
}

impl Walk {
    ghost use Rattle.grasp_cbor.specs.Walking.{Took, Made, Answers, open_levels, limit_of, count_of};
    ghost use Rattle.grasp_cbor.specs.Passing.{Passed, Moves};

    /// Before the first byte of an item of at most `limit` bytes.
    pub(crate) fn new(limit: u64) -> Walk
        requires { 0 < limit }
        ensures fresh { Took result [] }
        ensures limit { limit_of result ≡ limit }
    {
        Walk {
            limit,
            taken: 0,
            depth: 0,
            levels: [Level::Items; 16],
            string: None,
            stage: Stage::Beginning,
        }
    }

    /// Takes the next byte. After an item it stands before the next one.
    pub(crate) fn take(&mut self, byte: u8) -> Result<Taken, WalkFault>
        ensures exact { (s : List ℕ) → Took self.old s → Answers self.old self.new s byte result }
        ensures limit { limit_of self.new ≡ limit_of self.old }
    {
        let at = self.taken;
        if at >= self.limit {
            return Err(WalkFault::TooLong);
        }
        self.taken = at + 1;
        match self.advance(byte) {
            Err(name) => Err(WalkFault::Bad(name, at)),
            Ok(Taken::Whole) => {
                self.taken = 0;
                Ok(Taken::Whole)
            }
            Ok(Taken::More) => {
                if self.taken == self.limit {
                    return Err(WalkFault::TooLong);
                }
                Ok(Taken::More)
            }
        }
    }

    /// Takes some of these bytes, behind each of which the item goes on, and answers how many. It may take none.
    pub(crate) fn pass(&mut self, bytes: &[u8]) -> usize
        ensures within { result ≤ length bytes.now }
        ensures took { (s : List ℕ) → Took self.old s → Took self.new (s ++ take result bytes.now) }
        ensures limit { limit_of self.new ≡ limit_of self.old }
    {
        let mut passed = 0;
        while passed < bytes.len() {
            let more = self.pass_part(&bytes[passed..]);
            if more == 0 {
                return passed;
            }
            passed += more;
        }
        passed
    }

    /// Takes a part of a string or a head of these bytes, if the item goes on behind it, and answers how many bytes.
    fn pass_part(&mut self, bytes: &[u8]) -> usize
        ensures within { result ≤ length bytes.now }
        ensures took { (s : List ℕ) → Took self.old s → Took self.new (s ++ take result bytes.now) }
        ensures limit { limit_of self.new ≡ limit_of self.old }
    {
        let room = self.limit.saturating_sub(self.taken).saturating_sub(1);
        let there = lesser(bytes.len() as u64, room) as usize;
        let passed = self.pass_front(&bytes[..there]);
        self.taken += passed as u64;
        passed
    }

    /// As `pass_part`, without counting the bytes.
    fn pass_front(&mut self, bytes: &[u8]) -> usize
        ensures within { result ≤ length bytes.now }
        ensures passed { Passed self.old self.new (take result bytes.now) }
        ensures kept { (self.new.taken ≡ self.old.taken) × (self.new.limit ≡ self.old.limit) }
    {
        match self.stage {
            Stage::Beginning => self.pass_head(bytes),
            Stage::Heading(..) => 0,
            Stage::InBytes(left) => self.pass_bytes(left, bytes),
            Stage::InText(owed, left) => self.pass_text(owed, left, bytes),
        }
    }

    /// Takes bytes of a byte string, but for its last.
    fn pass_bytes(&mut self, left: u64, bytes: &[u8]) -> usize
        requires { self.old.stage ≡ InBytes left }
        ensures within { result ≤ length bytes.now }
        ensures passed { Passed self.old self.new (take result bytes.now) }
        ensures kept { (self.new.taken ≡ self.old.taken) × (self.new.limit ≡ self.old.limit) }
    {
        let passed = lesser(bytes.len() as u64, left.saturating_sub(1));
        self.stage = Stage::InBytes(left - passed);
        passed as usize
    }

    /// Takes characters of one byte of a text string, but for its last byte.
    fn pass_text(&mut self, owed: Owed, left: u64, bytes: &[u8]) -> usize
        requires { self.old.stage ≡ InText owed left }
        ensures within { result ≤ length bytes.now }
        ensures passed { Passed self.old self.new (take result bytes.now) }
        ensures kept { (self.new.taken ≡ self.old.taken) × (self.new.limit ≡ self.old.limit) }
    {
        if owed.need > 0 {
            return 0;
        }
        let most = lesser(bytes.len() as u64, left.saturating_sub(1)) as usize;
        let passed = ascii_front(&bytes[..most]);
        if passed == 0 {
            return 0;
        }
        self.stage = Stage::InText(READY, left - passed as u64);
        passed
    }

    /// Takes a head of one byte or an unsigned number, behind which an item goes on.
    fn pass_head(&mut self, bytes: &[u8]) -> usize
        requires { self.old.stage ≡ Beginning }
        ensures within { result ≤ length bytes.now }
        ensures passed { Passed self.old self.new (take result bytes.now) }
        ensures kept { (self.new.taken ≡ self.old.taken) × (self.new.limit ≡ self.old.limit) }
    {
        if self.string.is_some() {
            return 0;
        }
        match bytes {
            [] => 0,
            [first, rest @ ..] => match self.first_fault(*first / 32, *first % 32) {
                Some(_) => 0,
                None => self.pass_fine(*first, rest),
            },
        }
    }

    /// As `pass_head`, where the first byte has no fault.
    fn pass_fine(&mut self, first: u8, rest: &[u8]) -> usize
        requires stage { self.old.stage ≡ Beginning }
        requires string { self.old.string ≡ None }
        requires fine { first_name (open_levels self.old) None (first / 32) (first % 32) ≡ None }
        ensures within { result ≤ length rest.now + 1 }
        ensures passed { Passed self.old self.new (take result (first ∷ rest.now)) }
        ensures kept { (self.new.taken ≡ self.old.taken) × (self.new.limit ≡ self.old.limit) }
    {
        let info = first % 32;
        if info < 24 {
            if self.pass_small(Major::of(first / 32), info) {
                return 1;
            }
            return 0;
        }
        if first > 27 {
            return 0;
        }
        let size = usize::from(width_at(info));
        if rest.len() < size {
            return 0;
        }
        if self.pass_item() { size + 1 } else { 0 }
    }

    /// Takes a head of one byte, behind which an item goes on, and answers whether it did.
    fn pass_small(&mut self, major: Major, info: u8) -> bool
        requires stage { self.old.stage ≡ Beginning }
        requires string { self.old.string ≡ None }
        requires room { self.old.depth + levels_of major ≤ 16 }
        ensures moves { Moves self.old self.new result (after_head (open_levels self.old) None (body_of major info)) }
        ensures kept { (self.new.taken ≡ self.old.taken) × (self.new.limit ≡ self.old.limit) }
    {
        match major {
            Major::Unsigned | Major::Negative | Major::Simple => self.pass_item(),
            Major::ByteString => {
                if info == 0 {
                    return self.pass_item();
                }
                self.stage = Stage::InBytes(u64::from(info));
                true
            }
            Major::TextString => {
                if info == 0 {
                    return self.pass_item();
                }
                self.stage = Stage::InText(READY, u64::from(info));
                true
            }
            Major::Array => self.pass_parts(u128::from(info)),
            Major::Map => self.pass_parts(2 * u128::from(info)),
            Major::Tag => self.pass_parts(1),
        }
    }

    /// Begins an array, a map or a tag of so many parts, behind whose head an item goes on, and answers whether it did.
    fn pass_parts(&mut self, parts: u128) -> bool
        requires stage { self.old.stage ≡ Beginning }
        requires string { self.old.string ≡ None }
        requires room { self.old.depth < 16 }
        ensures moves { Moves self.old self.new result (after_head (open_levels self.old) None (some_parts parts)) }
        ensures kept { (self.new.taken ≡ self.old.taken) × (self.new.limit ≡ self.old.limit) }
    {
        if parts == 0 {
            return self.pass_item();
        }
        self.push(Level::Parts(parts));
        true
    }

    /// Ends an item inside others, and answers whether one goes on.
    fn pass_item(&mut self) -> bool
        requires stage { self.old.stage ≡ Beginning }
        requires string { self.old.string ≡ None }
        ensures moves { Moves self.old self.new result (finished (open_levels self.old)) }
        ensures kept { (self.new.taken ≡ self.old.taken) × (self.new.limit ≡ self.old.limit) }
    {
        let open = end_item(&mut self.levels, self.depth);
        if open == 0 {
            return false;
        }
        self.depth = open;
        true
    }

    /// How many bytes it has taken since the last whole item.
    pub(crate) fn count(&self) -> u64
        ensures { result ≡ count_of self.now }
    {
        self.taken
    }

    fn advance(&mut self, byte: u8) -> Result<Taken, FaultName>
        ensures made { Made self.new result (step (open_levels self.old) self.old.string self.old.stage byte) }
        ensures kept { (self.new.taken ≡ self.old.taken) × (self.new.limit ≡ self.old.limit) }
    {
        match self.stage {
            Stage::Beginning => self.start(byte),
            Stage::Heading(major, short, value, left) => {
                self.go_on_head(major, short, value, left, byte)
            }
            Stage::InBytes(left) => Ok(self.go_on_bytes(left)),
            Stage::InText(owed, left) => self.go_on_text(owed, left, byte),
        }
    }

    fn start(&mut self, byte: u8) -> Result<Taken, FaultName>
        ensures made { Made self.new result (step (open_levels self.old) self.old.string Beginning byte) }
        ensures kept { (self.new.taken ≡ self.old.taken) × (self.new.limit ≡ self.old.limit) }
    {
        match self.first_fault(byte / 32, byte % 32) {
            Some(name) => Err(name),
            None => Ok(self.start_head(Major::of(byte / 32), byte % 32)),
        }
    }

    /// The fault of the first byte of an item or of a chunk.
    fn first_fault(&self, major: u8, info: u8) -> Option<FaultName>
        ensures { result ≡ first_name (open_levels self.now) self.now.string major info }
    {
        match self.string {
            Some(kind) => chunk_fault(kind, major, info),
            None => start_fault(self.depth, self.may_break(), major, info),
        }
    }

    /// Whether a break may stand between the parts of the innermost level.
    fn may_break(&self) -> bool
        ensures { result ≡ can_break (open_levels self.now) }
    {
        if self.depth == 0 {
            return false;
        }
        matches!(
            self.levels[(self.depth - 1) as usize],
            Level::Items | Level::Keys
        )
    }

    fn start_head(&mut self, major: Major, info: u8) -> Taken
        requires { self.old.depth + levels_of major ≤ 16 }
        ensures made { Made self.new (Ok result) (heads (open_levels self.old) self.old.string major info) }
        ensures kept { (self.new.taken ≡ self.old.taken) × (self.new.limit ≡ self.old.limit) }
    {
        if info < 24 {
            return self.enter(major, u64::from(info));
        }
        if info == 31 {
            return self.open_up_to_break(major);
        }
        self.stage = Stage::Heading(major, info == 24, 0, width_at(info));
        Taken::More
    }

    fn go_on_head(
        &mut self,
        major: Major,
        short: bool,
        value: u64,
        left: u8,
        byte: u8,
    ) -> Result<Taken, FaultName>
        requires { self.old.depth + levels_of major ≤ 16 }
        ensures made { Made self.new result (step (open_levels self.old) self.old.string (Heading major short value left) byte) }
        ensures kept { (self.new.taken ≡ self.old.taken) × (self.new.limit ≡ self.old.limit) }
    {
        if has_simple(major) && short && byte < 32 {
            return Err(FaultName::Malformed);
        }
        let number = (value << 8) + u64::from(byte);
        if left > 1 {
            self.stage = Stage::Heading(major, short, number, left - 1);
            return Ok(Taken::More);
        }
        Ok(self.enter(major, number))
    }

    fn go_on_bytes(&mut self, left: u64) -> Taken
        ensures made { (byte : ℕ) → Made self.new (Ok result) (step (open_levels self.old) self.old.string (InBytes left) byte) }
        ensures kept { (self.new.taken ≡ self.old.taken) × (self.new.limit ≡ self.old.limit) }
    {
        if left > 1 {
            self.stage = Stage::InBytes(left - 1);
            return Taken::More;
        }
        self.settle()
    }

    fn go_on_text(&mut self, owed: Owed, left: u64, byte: u8) -> Result<Taken, FaultName>
        ensures made { Made self.new result (step (open_levels self.old) self.old.string (InText owed left) byte) }
        ensures kept { (self.new.taken ≡ self.old.taken) × (self.new.limit ≡ self.old.limit) }
    {
        let Some(after) = after_byte(owed, byte) else {
            return Err(FaultName::NotText);
        };
        if u64::from(after.need) > left.saturating_sub(1) {
            return Err(FaultName::NotText);
        }
        if left > 1 {
            self.stage = Stage::InText(after, left - 1);
            return Ok(Taken::More);
        }
        Ok(self.settle())
    }

    /// A head has ended.
    fn enter(&mut self, major: Major, n: u64) -> Taken
        requires { self.old.depth + levels_of major ≤ 16 }
        ensures made { Made self.new (Ok result) (after_head (open_levels self.old) self.old.string (body_of major n)) }
        ensures kept { (self.new.taken ≡ self.old.taken) × (self.new.limit ≡ self.old.limit) }
    {
        match major {
            Major::Unsigned | Major::Negative | Major::Simple => self.settle(),
            Major::ByteString => {
                if n == 0 {
                    return self.settle();
                }
                self.stage = Stage::InBytes(n);
                Taken::More
            }
            Major::TextString => {
                if n == 0 {
                    return self.settle();
                }
                self.stage = Stage::InText(READY, n);
                Taken::More
            }
            Major::Array => self.open(u128::from(n)),
            Major::Map => self.open(2 * u128::from(n)),
            Major::Tag => self.open(1),
        }
    }

    /// An array, a map or a tag of so many parts has begun.
    fn open(&mut self, parts: u128) -> Taken
        requires { self.old.depth < 16 }
        ensures made { Made self.new (Ok result) (after_head (open_levels self.old) self.old.string (some_parts parts)) }
        ensures kept { (self.new.taken ≡ self.old.taken) × (self.new.limit ≡ self.old.limit) }
    {
        if parts == 0 {
            return self.settle();
        }
        self.push(Level::Parts(parts))
    }

    /// A string, an array or a map of indefinite length has begun, or a break stands there.
    fn open_up_to_break(&mut self, major: Major) -> Taken
        requires { self.old.depth + levels_of major ≤ 16 }
        ensures made { Made self.new (Ok result) (opened (open_levels self.old) self.old.string major) }
        ensures kept { (self.new.taken ≡ self.old.taken) × (self.new.limit ≡ self.old.limit) }
    {
        match major {
            Major::ByteString => self.open_string(StringKind::Bytes),
            Major::TextString => self.open_string(StringKind::Text),
            Major::Array => self.push(Level::Items),
            Major::Map => self.push(Level::Keys),
            Major::Unsigned | Major::Negative | Major::Tag | Major::Simple => self.end_break(),
        }
    }

    fn open_string(&mut self, kind: StringKind) -> Taken
        ensures made { Made self.new (Ok result) (goes (open_levels self.old) (Some kind) Beginning) }
        ensures kept { (self.new.taken ≡ self.old.taken) × (self.new.limit ≡ self.old.limit) }
    {
        self.stage = Stage::Beginning;
        self.string = Some(kind);
        Taken::More
    }

    /// One level more.
    fn push(&mut self, level: Level) -> Taken
        requires { self.old.depth < 16 }
        ensures made { Made self.new (Ok result) (goes (level ∷ open_levels self.old) self.old.string Beginning) }
        ensures kept { (self.new.taken ≡ self.old.taken) × (self.new.limit ≡ self.old.limit) }
    {
        self.stage = Stage::Beginning;
        self.levels[self.depth as usize] = level;
        self.depth += 1;
        Taken::More
    }

    /// A break ends the string of indefinite length, or else the innermost level.
    fn end_break(&mut self) -> Taken
        ensures made { Made self.new (Ok result) (broken (open_levels self.old) self.old.string) }
        ensures kept { (self.new.taken ≡ self.old.taken) × (self.new.limit ≡ self.old.limit) }
    {
        if self.string.is_some() {
            self.string = None;
            return self.settle();
        }
        if self.depth == 0 {
            return self.settle();
        }
        self.stage = Stage::Beginning;
        self.depth -= 1;
        self.settle()
    }

    /// An item has ended, or a chunk of a string of indefinite length.
    fn settle(&mut self) -> Taken
        ensures made { Made self.new (Ok result) (ended (open_levels self.old) self.old.string) }
        ensures kept { (self.new.taken ≡ self.old.taken) × (self.new.limit ≡ self.old.limit) }
    {
        self.stage = Stage::Beginning;
        if self.string.is_some() {
            return Taken::More;
        }
        self.depth = end_item(&mut self.levels, self.depth);
        if self.depth == 0 {
            Taken::Whole
        } else {
            Taken::More
        }
    }
}

/// The fault of an initial byte inside so many arrays, maps and tags, where a break may stand or not.
#[tactic(auto, unfolding(crate::specs::Front::start_name))]
fn start_fault(inside: u8, breaks: bool, major: u8, info: u8) -> Option<FaultName>
    ensures { result ≡ start_name inside breaks major info }
{
    if (27 < info && info < 31)
        || (info == 31 && ((major < 2 || major == 6) || (major == 7 && !breaks)))
    {
        Some(FaultName::Malformed)
    } else if (3 < major && major < 7) && 16 <= inside {
        Some(FaultName::TooDeep)
    } else {
        None
    }
}

/// The fault of an initial byte inside a string of indefinite length.
#[tactic(auto, unfolding(crate::specs::Front::chunk_name))]
fn chunk_fault(kind: StringKind, major: u8, info: u8) -> Option<FaultName>
    ensures { result ≡ chunk_name kind major info }
{
    if (major == kind.major() && info < 28) || (major == 7 && info == 31) {
        None
    } else {
        Some(FaultName::Malformed)
    }
}

/// The lesser of two numbers.
fn lesser(a: u64, b: u64) -> u64
    ensures first { result ≤ a }
    ensures second { result ≤ b }
{
    if a < b { a } else { b }
}

/// How many bytes stand before the first that isn't a character of ASCII.
fn ascii_front(bytes: &[u8]) -> usize
    ensures within { result ≤ length bytes.now }
    ensures ascii { (k : ℕ) → k < result → slice_index bytes.now k < 128 }
{
    for (i, byte) in bytes.iter().enumerate() {
        if *byte >= 128 {
            return i;
        }
    }
    bytes.len()
}

fn width_at(info: u8) -> u8
    ensures { result ≡ width_of info }
{
    match info {
        24 => 1,
        25 => 2,
        26 => 4,
        _ => 8,
    }
}

fn has_simple(major: Major) -> bool
    ensures { result ≡ is_simple major }
{
    matches!(major, Major::Simple)
}

/// What a level waits for after one more part, or `None` where it has them all.
fn after_part(level: Level) -> Option<Level>
    ensures { result ≡ level_after level }
{
    match level {
        Level::Parts(left) => {
            if left > 1 {
                Some(Level::Parts(left - 1))
            } else {
                None
            }
        }
        Level::Items => Some(Level::Items),
        Level::Keys => Some(Level::Values),
        Level::Values => Some(Level::Keys),
    }
}

/// Ends an item inside so many levels: how many are open then.
fn end_item(levels: &mut [Level; 16], depth: u8) -> u8
    requires { depth ≤ 16 }
    ensures within { result ≤ depth }
    ensures same { result ≡ 0 → levels.new ≡ levels.old }
    ensures open { 0 < result → finished (levels_in depth levels.old) ≡ goes (levels_in result levels.new) None Beginning }
    ensures whole { result ≡ 0 → finished (levels_in depth levels.old) ≡ whole }
{
    let mut open = depth;
    while open > 0 {
        let place = (open - 1) as usize;
        if let Some(level) = after_part(levels[place]) {
            levels[place] = level;
            return open;
        }
        open -= 1;
    }
    0
}
