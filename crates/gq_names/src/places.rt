//! First places of names, found in a table of buckets, of which two may hold a name. Names that find both taken are found by comparing
//! texts, so that no choice of names makes that slow.
ghost use Rattle.std.specs.Prelude.{◌≡◌, ◌≢◌, ◌<◌, ◌≤◌, ◌++◌, ◌∷◌, [], ℕ, false, not, length, position, IfOk, OnOk, OnErr};
ghost use Rattle.std.specs.List.{list_any};
ghost use Rattle.std.specs.Str.{bytes_eq};
ghost use Rattle.gq_names.specs.Helping.Places.{FindFirstPlaces, IsTaken, digest, digest_from, first_of, in_bucket, joined, mixed, second_of};

use gq_text::{NoMemory, SmallText};
use std::alloc::Global;
use std::collections::BTreeMap;

/// The most names that get no table. To go over so few takes less time than to make one.
pub const FEW: usize = 16;

/// An odd number without a pattern in its bits.
const MIXER: usize = 0x9E37_79B9_7F4A_7C15;

/// The first places of names: of each bucket one more than the place of a name, as a number of 32 bits, or 0 where none is, and of each
/// other name its own place. A name whose place is too large for a bucket is one of those others.
#[derive(Drop)]
pub struct FirstPlaces {
    of_buckets: Vec<u32>,
    of_others: BTreeMap<String, usize>,
}

/// What a number becomes where a part of a text is added to it. A higher bit depends on all bits that are lower.
fn mixed(number: usize, part: usize) -> usize
    ensures { result ≡ mixed number part }
{
    number.wrapping_add(part).wrapping_mul(MIXER)
}

/// The number of four bytes, the lowest first.
fn joined(a: u8, b: u8, c: u8, d: u8) -> usize
    ensures { result ≡ joined a b c d }
{
    usize::from(a)
        + usize::from(b) * 0x100
        + usize::from(c) * 0x1_0000
        + usize::from(d) * 0x100_0000
}

/// What a number becomes where bytes are added to it, one by one.
fn digest_of_few(number: usize, bytes: &[u8]) -> usize
    requires { length bytes.now < 4 }
    ensures { result ≡ digest_from number bytes.now }
{
    match bytes {
        [a] => mixed(number, usize::from(*a)),
        [a, b] => mixed(mixed(number, usize::from(*a)), usize::from(*b)),
        [a, b, c] => mixed(
            mixed(mixed(number, usize::from(*a)), usize::from(*b)),
            usize::from(*c),
        ),
        _ => number,
    }
}

/// A number made of the text, four bytes at a time. Most texts have one of their own.
fn digest(text: &str) -> usize
    ensures { result ≡ digest text.now }
{
    let mut number: usize = 0;
    let mut bytes = text.as_bytes();
    while let [a, b, c, d, rest @ ..] = bytes {
        number = mixed(number, joined(*a, *b, *c, *d));
        bytes = rest;
    }
    digest_of_few(number, bytes)
}

/// How many buckets are made for so many names: a power of two, eight for each name at least.
fn bucket_count(names: usize) -> usize
    ensures { 0 < result }
{
    match names.saturating_mul(8).checked_next_power_of_two() {
        Some(count) => count,
        None => names.saturating_add(1),
    }
}

/// A table of that many buckets, with nothing in them.
fn empty_buckets(alloc: Global, count: usize) -> Result<FirstPlaces, NoMemory>
    requires { 0 < count }
    ensures { IfOk result (λ places. FindFirstPlaces places []) }
{
    Ok(FirstPlaces {
        of_buckets: vec![in alloc; 0; count]?,
        of_others: BTreeMap::new(alloc),
    })
}

impl FirstPlaces {
    /// No table. It takes no memory.
    pub fn new(alloc: Global) -> FirstPlaces {
        FirstPlaces {
            of_buckets: Vec::new(alloc),
            of_others: BTreeMap::new(alloc),
        }
    }

    /// The bucket in which a text of that number is looked for first.
    fn first_bucket(&self, number: usize) -> usize
        requires { 0 < length self.now.of_buckets.items }
        ensures is { result ≡ first_of (length self.now.of_buckets.items) number }
        ensures within { result < length self.now.of_buckets.items }
    {
        (number >> 32) & (self.of_buckets.len() - 1)
    }

    /// The bucket in which it is looked for then.
    fn second_bucket(&self, number: usize) -> usize
        requires { 0 < length self.now.of_buckets.items }
        ensures is { result ≡ second_of (length self.now.of_buckets.items) number }
        ensures within { result < length self.now.of_buckets.items }
    {
        (number >> 44) & (self.of_buckets.len() - 1)
    }

    /// The place that a bucket holds.
    fn place_in(&self, bucket: usize) -> Option<usize>
        requires { bucket < length self.now.of_buckets.items }
        ensures { result ≡ in_bucket self.now.of_buckets.items bucket }
    {
        let kept = self.of_buckets[bucket] as usize;
        if kept == 0 { None } else { Some(kept - 1) }
    }

    /// The first place of the name among the names, whose places these are. It takes no memory.
    pub fn get(&self, names: &[SmallText], name: &str) -> Option<usize>
        requires { FindFirstPlaces self.now names.now }
        ensures { result ≡ position (bytes_eq name.now) names.now }
    {
        let number = digest(name);
        let first = self.place_in(self.first_bucket(number))?;
        if name == names[first].as_str() {
            return Some(first);
        }
        let second = self.place_in(self.second_bucket(number))?;
        if name == names[second].as_str() {
            return Some(second);
        }
        self.of_others.get(name).copied()
    }

    /// Puts a name that is not among the names behind them, under its text, since both its buckets are taken.
    fn put_under(&mut self, alloc: Global, names: &[SmallText], name: &str) -> Result<(), NoMemory>
        requires places { FindFirstPlaces self.now names.now }
        requires new { list_any (bytes_eq name.now) names.now ≡ false }
        requires first { IsTaken self.now.of_buckets.items (first_of (length self.now.of_buckets.items) (digest name.now)) }
        requires second { IsTaken self.now.of_buckets.items (second_of (length self.now.of_buckets.items) (digest name.now)) }
        ensures ok { OnOk result (FindFirstPlaces self.new (names.now ++ name.now ∷ [])) }
        ensures err { OnErr result (FindFirstPlaces self.new names.now) }
    {
        let key = String::from_str(alloc, name)?;
        self.of_others.insert(key, names.len())?;
        Ok(())
    }

    /// Puts the place of the first name in that bucket, where it is empty. Each of the names is found as before, since no look-up of one
    /// comes to an empty bucket.
    fn fill(&mut self, names: &[SmallText], bucket: usize)
        requires places { FindFirstPlaces self.now names.now }
        requires some { 0 < length names.now }
        requires within { bucket < length self.now.of_buckets.items }
        ensures places { FindFirstPlaces self.new names.now }
        ensures count { length self.new.of_buckets.items ≡ length self.old.of_buckets.items }
        ensures taken { IsTaken self.new.of_buckets.items bucket }
        ensures others { (other : ℕ) → IsTaken self.old.of_buckets.items other → IsTaken self.new.of_buckets.items other }
    {
        if self.place_in(bucket).is_none() {
            self.of_buckets[bucket] = 1;
        }
    }

    /// Puts a name that is not among the names behind them, under its text, since its place is too large for a bucket. A look-up ends at
    /// an empty bucket, and would not come to what is under the text: so each of the name's buckets that is empty gets the place of
    /// another name, the first of all.
    fn put_apart(&mut self, alloc: Global, names: &[SmallText], name: &str) -> Result<(), NoMemory>
        requires places { FindFirstPlaces self.now names.now }
        requires some { 0 < length names.now }
        requires new { list_any (bytes_eq name.now) names.now ≡ false }
        ensures ok { OnOk result (FindFirstPlaces self.new (names.now ++ name.now ∷ [])) }
        ensures err { OnErr result (FindFirstPlaces self.new names.now) }
    {
        let number = digest(name);
        let first = self.first_bucket(number);
        let second = self.second_bucket(number);
        self.fill(names, first);
        self.fill(names, second);
        self.put_under(alloc, names, name)
    }

    /// Puts a name that is not among the names behind them: in a bucket, if one of its own is empty and the place fits into it.
    fn put(&mut self, alloc: Global, names: &[SmallText], name: &str) -> Result<(), NoMemory>
        requires places { FindFirstPlaces self.now names.now }
        requires new { list_any (bytes_eq name.now) names.now ≡ false }
        ensures ok { OnOk result (FindFirstPlaces self.new (names.now ++ name.now ∷ [])) }
        ensures err { OnErr result (FindFirstPlaces self.new names.now) }
    {
        let Ok(kept) = u32::try_from(names.len() + 1) else {
            return self.put_apart(alloc, names, name);
        };
        let number = digest(name);
        let first = self.first_bucket(number);
        let second = self.second_bucket(number);
        if self.place_in(first).is_none() {
            self.of_buckets[first] = kept;
            Ok(())
        } else if self.place_in(second).is_none() {
            self.of_buckets[second] = kept;
            Ok(())
        } else {
            self.put_under(alloc, names, name)
        }
    }

    /// Puts a name behind the names, unless it is one of them.
    fn put_new(&mut self, alloc: Global, names: &[SmallText], name: &str) -> Result<(), NoMemory>
        requires { FindFirstPlaces self.now names.now }
        ensures { OnOk result (FindFirstPlaces self.new (names.now ++ name.now ∷ [])) }
    {
        if self.get(names, name).is_none() {
            self.put(alloc, names, name)?;
        }
        Ok(())
    }

    /// The first places of these names, in a table with room for twice as many again, of which at least three in four buckets stay
    /// empty.
    fn of(alloc: Global, names: &[SmallText]) -> Result<FirstPlaces, NoMemory>
        ensures { IfOk result (λ places. FindFirstPlaces places names.now) }
    {
        let mut places = empty_buckets(alloc, bucket_count(names.len()))?;
        for (place, name) in names.iter().enumerate() {
            places.put_new(alloc, &names[..place], name.as_str())?;
        }
        Ok(places)
    }

    /// Whether one name more than so many wants a larger table.
    fn is_full(&self, count: usize) -> bool
        ensures { result ≡ false → count ≢ 16 }
    {
        count == FEW || count > FEW && count >= self.of_buckets.len() / 4
    }

    /// Has the places of these names, where they are more than a few less one.
    fn make(&mut self, alloc: Global, names: &[SmallText]) -> Result<(), NoMemory>
        requires { 16 < length names.now → FindFirstPlaces self.now names.now }
        ensures ok { OnOk result (16 ≤ length names.now → FindFirstPlaces self.new names.now) }
        ensures err { OnErr result (self.new ≡ self.old) }
    {
        if self.is_full(names.len()) {
            *self = FirstPlaces::of(alloc, names)?;
        }
        Ok(())
    }

    /// Puts a name, which is the first of its text or not, behind the names. Where these are few, nothing is kept.
    pub fn put_behind(
        &mut self,
        alloc: Global,
        names: &[SmallText],
        name: &str,
        is_first: bool,
    ) -> Result<(), NoMemory>
        requires places { 16 < length names.now → FindFirstPlaces self.now names.now }
        requires first { 16 ≤ length names.now → is_first ≡ not (list_any (bytes_eq name.now) names.now) }
        ensures ok { OnOk result (16 ≤ length names.now → FindFirstPlaces self.new (names.now ++ name.now ∷ [])) }
        ensures err { OnErr result (16 < length names.now → FindFirstPlaces self.new names.now) }
    {
        self.make(alloc, names)?;
        if names.len() >= FEW && is_first {
            self.put(alloc, names, name)?;
        }
        Ok(())
    }
}
