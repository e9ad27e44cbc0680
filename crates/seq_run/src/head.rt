//! The heads of items' lines, and the whole lines of numbers below 24.

ghost use Rattle.std.specs.Prelude.{◌≡◌, ◌≤◌, ◌<◌, ◌+◌, ◌*◌, ◌%◌, ◌^◌, ◌++◌, ℕ, All, codes, decimal, length, suc, take, IsTrue, OnOk};
ghost use Rattle.seq_run.specs.Heads.{AreNear, IsHundred, IsTemplate};
ghost use Rattle.seq_run.specs.Output.{items_output};
ghost use Rattle.seq_run.specs.Report.{head_text};
ghost use Rattle.seq_run.specs.Smalls.{smalls_from};
ghost use Rattle.seq_run.specs.declared.output.Mode.TheVariants.{Report};
ghost use Rattle.tape_notation.specs.Put.{IsPut};

use std::alloc::AllocError;
use std::marker::Model;
use tape_notation::put::{put, put_byte, put_number, put_pair};

// How many bytes a head is copied with, whatever its length, which is 51 at most: a few moves take less than a loop.
const ROOM: usize = 64;

// A head, `item N at OFFSET: `, at the front of a text.
#[derive(Drop)]
struct Template {
    text: [u8; ROOM],
    number_end: usize,
    end: usize,
}

// The numbers from `first` on and before `end`: they have two digits at least, and all but the last two are those of `base`.
#[derive(Clone, Copy)]
struct Hundred {
    base: u64,
    first: u64,
    end: u64,
}

// The heads of items one after the other: one of them, from which those after it mostly differ in the last two digits of their
// numbers alone. These are put where the others are copied to.
#[derive(Drop)]
pub(crate) struct Heads {
    template: Template,
    number: u64,
    offset: u64,
    numbers: Hundred,
    offsets: Hundred,
}

impl Model for Heads {
    ghost use Rattle.std.specs.Prelude.{List, ℕ};
    ghost use Rattle.seq_run.specs.Heads.{IsHundred, IsTemplate};
    ghost use Rattle.seq_run.specs.Report.{head_text};

    ghost Value = { List ℕ };

    ghost view = { λ h. head_text h.number h.offset };

    ghost invariant = { λ h. IsTemplate h.template h.number h.offset × (IsHundred h.numbers h.number × IsHundred h.offsets h.offset) };
}

impl Heads {
    // Those that begin with the head of an item 0 at 0.
    pub(crate) fn new() -> Heads {
        Heads {
            template: template_of(0, 0),
            number: 0,
            offset: 0,
            numbers: hundred_of(0),
            offsets: hundred_of(0),
        }
    }

    // Puts the head of this item at `at`, and answers where it ends. What is after it says nothing.
    #[inline(always)]
    pub(crate) fn put(&mut self, out: &mut [u8], at: usize, number: u64, offset: u64) -> usize
        requires { at + 64 ≤ length out.old }
        ensures put { IsPut out.old out.new at (head_text number offset) result }
        ensures short { result ≤ at + 51 }
    {
        if has(self.numbers, number) && has(self.offsets, offset) {
            let number_last = (number - self.numbers.base) as u32;
            let offset_last = (offset - self.offsets.base) as u32;
            return put_near(out, at, &self.template, number_last, offset_last);
        }
        self.put_anew(out, at, number, offset)
    }

    // Appends the head of this item.
    pub(crate) fn push(
        &mut self,
        line: &mut Vec<u8>,
        number: u64,
        offset: u64,
    ) -> Result<(), AllocError>
        ensures { OnOk result (line.new.items ≡ line.old.items ++ head_text number offset) }
    {
        let mut text = [0; ROOM];
        let end = self.put(&mut text, 0, number, offset);
        line.extend_from_slice(&text[..end])
    }

    // Puts the head of this item, whatever came before.
    #[cold]
    #[inline(never)]
    fn put_anew(&mut self, out: &mut [u8], at: usize, number: u64, offset: u64) -> usize
        requires { at + 64 ≤ length out.old }
        ensures put { IsPut out.old out.new at (head_text number offset) result }
        ensures short { result ≤ at + 51 }
    {
        self.template = template_of(number, offset);
        self.number = number;
        self.offset = offset;
        self.numbers = hundred_of(number);
        self.offsets = hundred_of(offset);
        let _after = put(out, at, &self.template.text);
        at + self.template.end
    }

    // Puts the lines of unsigned integers below 24, and answers where they end: so many items come before them, and the first one
    // has this offset.
    #[inline(never)]
    pub(crate) fn put_small_lines(
        &mut self,
        out: &mut [u8],
        at: usize,
        before: u64,
        offset: u64,
        numbers: &[u8],
    ) -> usize
        requires small { All (λ n. n < 24) numbers.now }
        requires count { before ≤ offset }
        requires short { offset + length numbers.now < 2 ^ 64 }
        requires room { at + 64 * length numbers.now ≤ length out.old }
        ensures { IsPut out.old out.new at (items_output Report (suc before) (smalls_from offset numbers.now)) result }
    {
        let mut end = at;
        let mut done = 0;
        while done < numbers.len() {
            let number = before + 1 + done as u64;
            let place = offset + done as u64;
            let (after, count) = self.put_some_lines(out, end, number, place, &numbers[done..]);
            end = after;
            done += count;
        }
        end
    }

    // Puts the lines of the first ones whose heads are near, or of one, and answers where they end, and how many they are.
    #[inline(always)]
    fn put_some_lines(
        &mut self,
        out: &mut [u8],
        at: usize,
        number: u64,
        offset: u64,
        numbers: &[u8],
    ) -> (usize, usize)
        requires small { All (λ n. n < 24) numbers.now }
        requires some { 0 < length numbers.now }
        requires short { offset + length numbers.now < 2 ^ 64 }
        requires count { number ≤ offset + 1 }
        requires room { at + 64 * length numbers.now ≤ length out.old }
        ensures put { IsPut out.old out.new at (items_output Report number (smalls_from offset (take result.1 numbers.now))) result.0 }
        ensures some { 0 < result.1 }
        ensures within { result.1 ≤ length numbers.now }
        ensures short { result.0 ≤ at + 64 * result.1 }
    {
        if has(self.numbers, number) && has(self.offsets, offset) {
            let number_last = (number - self.numbers.base) as u32;
            let offset_last = (offset - self.offsets.base) as u32;
            let left = (self.numbers.end - number).min(self.offsets.end - offset) as usize;
            let count = left.min(numbers.len());
            let near = &numbers[..count];
            let end = put_near_lines(out, at, &self.template, number_last, offset_last, near);
            return (end, count);
        }
        let start = self.put_anew(out, at, number, offset);
        (put_rest(out, start, numbers[0]), 1)
    }
}

// The head of this item.
fn template_of(number: u64, offset: u64) -> Template
    ensures { IsTemplate result number offset }
{
    let mut text = [0; ROOM];
    let start = put(&mut text, 0, b"item ");
    let number_end = put_number(&mut text, start, number);
    let place = put(&mut text, number_end, b" at ");
    let offset_end = put_number(&mut text, place, offset);
    let end = put(&mut text, offset_end, b": ");
    Template {
        text,
        number_end,
        end,
    }
}

// The numbers that have the digits of this one but for the last two, where it has two at least, and where they have an end.
fn hundred_of(n: u64) -> Hundred
    ensures { IsHundred result n }
{
    let base = n - n % 100;
    Hundred {
        base,
        first: if base == 0 { 10 } else { base },
        end: if n < 10 || base > u64::MAX - 100 {
            0
        } else {
            base + 100
        },
    }
}

#[inline(always)]
fn has(numbers: Hundred, n: u64) -> bool
    ensures { IsTrue result → (numbers.first ≤ n) × (n < numbers.end) }
{
    numbers.first <= n && n < numbers.end
}

// Puts the head that has these last two digits of its number and of its offset, and all others of the template.
#[inline(always)]
fn put_near(
    out: &mut [u8],
    at: usize,
    template: &Template,
    number_last: u32,
    offset_last: u32,
) -> usize
    requires near { (m p : ℕ) × (10 ≤ m) × (10 ≤ p) × IsTemplate template.now m p }
    requires number { number_last < 100 }
    requires offset { offset_last < 100 }
    requires room { at + 64 ≤ length out.old }
    ensures put { (m p n o : ℕ) → IsTemplate template.now m p → AreNear m n → AreNear p o → number_last ≡ n % 100 → offset_last ≡ o % 100 → IsPut out.old out.new at (head_text n o) result }
    ensures short { result ≤ at + 51 }
{
    let _after = put(out, at, &template.text);
    let _number = put_pair(out, at + template.number_end - 2, number_last);
    let _offset = put_pair(out, at + template.end - 4, offset_last);
    at + template.end
}

// Puts the lines of these numbers, of which the first one's head is so, and each further one's has one more in both places.
#[inline(always)]
fn put_near_lines(
    out: &mut [u8],
    at: usize,
    template: &Template,
    number_last: u32,
    offset_last: u32,
    numbers: &[u8],
) -> usize
    requires small { All (λ n. n < 24) numbers.now }
    requires near { (m p : ℕ) × (10 ≤ m) × (10 ≤ p) × IsTemplate template.now m p }
    requires number { number_last + length numbers.now ≤ 100 }
    requires offset { offset_last + length numbers.now ≤ 100 }
    requires room { at + 64 * length numbers.now ≤ length out.old }
    ensures put { (m p n o : ℕ) → IsTemplate template.now m p → AreNear m n → AreNear p o → number_last ≡ n % 100 → offset_last ≡ o % 100 → IsPut out.old out.new at (items_output Report n (smalls_from o numbers.now)) result }
    ensures short { result ≤ at + 64 * length numbers.now }
{
    let mut end = at;
    for i in 0..numbers.len() {
        let start = put_near(
            out,
            end,
            template,
            number_last + i as u32,
            offset_last + i as u32,
        );
        end = put_rest(out, start, numbers[i]);
    }
    end
}

// Puts the notation of a number below 24 and a line feed.
#[inline(always)]
fn put_rest(out: &mut [u8], at: usize, n: u8) -> usize
    requires small { n < 24 }
    requires room { at + 13 ≤ length out.old }
    ensures put { IsPut out.old out.new at (decimal n ++ codes "\n") result }
    ensures short { result ≤ at + 13 }
{
    let end = put_number(out, at, u64::from(n));
    put_byte(out, end, b'\n')
}
