// Sums: origins of bytes, and linear forms in the public bytes of a frame's beginning.
use crate::growth::push;
use model_device::NoMemory;
use std::alloc::Global;

/// Where the dynamic and the public segment begin.
const DYNAMIC: u16 = 0x8000;

const PUBLIC: u16 = 0xC000;

/// The most bytes of a number whose forms are followed.
const LONGEST: u16 = 16;

/// Where a byte comes from: not known, a constant, or a public byte as the frame began.
#[derive(Clone, Copy, PartialEq, Eq, Debug)]
pub enum Origin {
    Unknown,
    Constant(u8),
    Public(u16),
}

/// A multiple of a public byte.
#[derive(Clone, Copy, PartialEq, Eq, Debug)]
pub struct Term {
    pub public: u16,
    pub factor: u128,
}

/// A number: a constant and multiples of public bytes, modulo a power of 256. The terms are in the order of their bytes,
/// and none is zero.
#[derive(PartialEq, Eq, Drop)]
pub struct Form {
    pub constant: u128,
    pub terms: Vec<Term>,
}

/// Returns the greatest number of n bytes, at most 16 of them counted.
pub fn mask(n: u16) -> u128 {
    if n == 0 {
        return 0;
    }
    if n >= 16 {
        u128::MAX
    } else {
        u128::MAX >> (128 - 8 * n)
    }
}

// The factor of a public byte, 0 if it has none.
fn factor_of(terms: &[Term], public: u16) -> u128 {
    for term in terms {
        if term.public == public {
            return term.factor;
        }
    }
    0
}

// Whether a public byte has a term.
fn has_public(terms: &[Term], public: u16) -> bool {
    for term in terms {
        if term.public == public {
            return true;
        }
    }
    false
}

// The number of terms of lower public bytes.
fn term_place(terms: &[Term], public: u16) -> usize {
    let mut place = 0;
    for (i, term) in terms.iter().enumerate() {
        if term.public < public {
            place = i + 1;
        }
    }
    place
}

// Adds a term of a public byte that has none yet; one that is zero is left out.
fn add_term(terms: &mut Vec<Term>, term: Term) -> Result<(), NoMemory> {
    if term.factor == 0 {
        return Ok(());
    }
    let place = term_place(terms.as_slice(), term.public);
    if place > terms.len() {
        return Ok(());
    }
    match terms.insert(place, term) {
        Ok(()) => Ok(()),
        Err(_) => Err(NoMemory),
    }
}

// Adds the terms of one form and a multiple of those of another.
fn add_sums(
    terms: &mut Vec<Term>,
    first: &[Term],
    second: &[Term],
    times: u128,
    n: u16,
) -> Result<(), NoMemory> {
    for term in first {
        let more = factor_of(second, term.public).wrapping_mul(times);
        let factor = term.factor.wrapping_add(more) & mask(n);
        add_term(
            terms,
            Term {
                public: term.public,
                factor,
            },
        )?;
    }
    Ok(())
}

// Adds multiples of the terms that another form does not have.
fn add_others(
    terms: &mut Vec<Term>,
    first: &[Term],
    second: &[Term],
    times: u128,
    n: u16,
) -> Result<(), NoMemory> {
    for term in second {
        if !has_public(first, term.public) {
            let factor = term.factor.wrapping_mul(times) & mask(n);
            add_term(
                terms,
                Term {
                    public: term.public,
                    factor,
                },
            )?;
        }
    }
    Ok(())
}

impl Form {
    /// Returns a constant.
    pub fn constant(alloc: Global, constant: u128) -> Form {
        Form {
            constant,
            terms: Vec::new(alloc),
        }
    }

    /// Returns a copy.
    ///
    /// # Errors
    ///
    /// Returns `NoMemory` if it is out of memory.
    pub fn copied(&self, alloc: Global) -> Result<Form, NoMemory> {
        Ok(Form {
            constant: self.constant,
            terms: Vec::from_slice(alloc, self.terms.as_slice())?,
        })
    }

    /// Returns whether it is zero whatever the public bytes are, modulo 256 to the n.
    pub fn is_zero(&self, n: u16) -> bool {
        self.constant & mask(n) == 0 && self.terms.is_empty()
    }

    /// Returns this plus a multiple of another, modulo 256 to the n, if that is known: of numbers of more than 16 bytes
    /// nothing is but what stays as it is.
    ///
    /// # Errors
    ///
    /// Returns `NoMemory` if it is out of memory.
    pub fn moved(
        &self,
        alloc: Global,
        other: &Form,
        times: u128,
        n: u16,
    ) -> Result<Option<Form>, NoMemory> {
        if n <= LONGEST {
            return Ok(Some(self.plus(alloc, other, times, n)?));
        }
        if other.is_zero(LONGEST) {
            return Ok(Some(self.copied(alloc)?));
        }
        Ok(None)
    }

    // This plus a multiple of another, modulo 256 to the n, n at most 16.
    fn plus(&self, alloc: Global, other: &Form, times: u128, n: u16) -> Result<Form, NoMemory> {
        let more = other.constant.wrapping_mul(times);
        let constant = self.constant.wrapping_add(more) & mask(n);
        let mut terms = Vec::new(alloc);
        add_sums(
            &mut terms,
            self.terms.as_slice(),
            other.terms.as_slice(),
            times,
            n,
        )?;
        add_others(
            &mut terms,
            self.terms.as_slice(),
            other.terms.as_slice(),
            times,
            n,
        )?;
        Ok(Form { constant, terms })
    }
}

// The number that a byte of an origin is, if that is known.
fn form_of_byte(alloc: Global, origin: Origin) -> Result<Option<Form>, NoMemory> {
    match origin {
        Origin::Unknown => Ok(None),
        Origin::Constant(value) => Ok(Some(Form::constant(alloc, value as u128))),
        Origin::Public(public) => {
            let mut terms = Vec::new(alloc);
            push(&mut terms, Term { public, factor: 1 })?;
            Ok(Some(Form { constant: 0, terms }))
        }
    }
}

/// Returns the number that bytes of these origins are, the highest first, or `None` if one is not known or they are more
/// than 16.
///
/// # Errors
///
/// Returns `NoMemory` if it is out of memory.
pub fn form_of(alloc: Global, origins: &[Origin]) -> Result<Option<Form>, NoMemory> {
    if origins.len() > LONGEST as usize {
        return Ok(None);
    }
    let zero = Form::constant(alloc, 0);
    let mut form = Form::constant(alloc, 0);
    for origin in origins {
        let Some(byte) = form_of_byte(alloc, *origin)? else {
            return Ok(None);
        };
        let shifted = zero.plus(alloc, &form, 256, LONGEST)?;
        form = shifted.plus(alloc, &byte, 1, LONGEST)?;
    }
    Ok(Some(form))
}

/// The origin of the byte at an address.
#[derive(Clone, Copy, PartialEq, Eq, Debug)]
pub struct Known {
    pub at: u16,
    pub origin: Origin,
}

/// How much more the dynamic block at an address is than the static block of a line that it was loaded from.
#[derive(PartialEq, Eq, Drop)]
pub struct More {
    pub line: usize,
    pub at: u16,
    pub form: Form,
}

/// The block of a line: its first byte and its length.
#[derive(Clone, Copy, PartialEq, Eq, Debug)]
pub struct Block {
    pub at: u16,
    pub n: u16,
}

/// What is known for sums.
#[derive(PartialEq, Eq, Drop)]
pub struct Sums {
    /// Whether a public byte that is not listed has its own origin.
    pub own: bool,
    /// The origins that are listed, in the order of their addresses.
    pub origins: Vec<Known>,
    pub more: Vec<More>,
    /// For each line how much its block is off, or `None`.
    pub off: Vec<Option<Form>>,
}

// Whether n bytes at one address and m at another have one in common.
fn overlaps(a: u32, n: u32, b: u32, m: u32) -> bool {
    a < b.saturating_add(m) && b < a.saturating_add(n)
}

// Whether bytes have one in common with a block.
fn is_touched(block: &Block, at: u32, n: u32) -> bool {
    overlaps(at, n, block.at as u32, block.n as u32)
}

// The block of a line, which is empty if there is none.
fn block_of(blocks: &[Block], line: usize) -> Block {
    match blocks.get(line) {
        Some(block) => *block,
        None => Block { at: 0, n: 0 },
    }
}

// The origin of a byte in a list.
fn origin_in(list: &[Known], at: u16) -> Option<Origin> {
    for known in list {
        if known.at == at {
            return Some(known.origin);
        }
    }
    None
}

// The origin of a byte that is not listed.
fn origin_unlisted(own: bool, at: u16) -> Origin {
    if own && at >= PUBLIC {
        Origin::Public(at)
    } else {
        Origin::Unknown
    }
}

// A copy of a form that may be none.
fn copied_form(alloc: Global, form: &Option<Form>) -> Result<Option<Form>, NoMemory> {
    match form {
        Some(form) => Ok(Some(form.copied(alloc)?)),
        None => Ok(None),
    }
}

fn copied_forms(alloc: Global, forms: &[Option<Form>]) -> Result<Vec<Option<Form>>, NoMemory> {
    let mut copies = Vec::new(alloc);
    for form in forms {
        push(&mut copies, copied_form(alloc, form)?)?;
    }
    Ok(copies)
}

fn copied_more(alloc: Global, more: &More) -> Result<More, NoMemory> {
    Ok(More {
        line: more.line,
        at: more.at,
        form: more.form.copied(alloc)?,
    })
}

fn copied_mores(alloc: Global, mores: &[More]) -> Result<Vec<More>, NoMemory> {
    let mut copies = Vec::new(alloc);
    for more in mores {
        push(&mut copies, copied_more(alloc, more)?)?;
    }
    Ok(copies)
}

// The forms of lines that are even.
fn evens(alloc: Global, lines: usize) -> Result<Vec<Option<Form>>, NoMemory> {
    let mut forms = Vec::new(alloc);
    for _ in 0..lines {
        push(&mut forms, Some(Form::constant(alloc, 0)))?;
    }
    Ok(forms)
}

// The forms of lines without those whose block is touched by bytes.
fn untouched_forms(
    alloc: Global,
    blocks: &[Block],
    forms: &[Option<Form>],
    at: u32,
    n: u32,
) -> Result<Vec<Option<Form>>, NoMemory> {
    let mut kept = Vec::new(alloc);
    for (block, form) in blocks.iter().zip(forms.iter()) {
        let next = if is_touched(block, at, n) {
            None
        } else {
            copied_form(alloc, form)?
        };
        push(&mut kept, next)?;
    }
    Ok(kept)
}

// Whether a loaded block or the block of its line is touched by bytes.
fn is_more_touched(blocks: &[Block], more: &More, at: u32, n: u32) -> bool {
    let block = block_of(blocks, more.line);
    is_touched(&block, at, n) || overlaps(at, n, more.at as u32, block.n as u32)
}

fn untouched_mores(
    alloc: Global,
    blocks: &[Block],
    mores: &[More],
    at: u32,
    n: u32,
) -> Result<Vec<More>, NoMemory> {
    let mut kept = Vec::new(alloc);
    for more in mores {
        if !is_more_touched(blocks, more, at, n) {
            push(&mut kept, copied_more(alloc, more)?)?;
        }
    }
    Ok(kept)
}

// How much a line is off after a whole block became more by a form.
fn moved_form(
    alloc: Global,
    block: &Block,
    off: &Option<Form>,
    moved: &Block,
    form: &Form,
    times: u128,
) -> Result<Option<Form>, NoMemory> {
    if !is_touched(block, moved.at as u32, moved.n as u32) {
        return copied_form(alloc, off);
    }
    match off {
        Some(off) if block == moved => off.moved(alloc, form, times, block.n),
        _ => Ok(None),
    }
}

fn moved_forms(
    alloc: Global,
    blocks: &[Block],
    forms: &[Option<Form>],
    moved: &Block,
    form: &Form,
    times: u128,
) -> Result<Vec<Option<Form>>, NoMemory> {
    let mut next = Vec::new(alloc);
    for (block, off) in blocks.iter().zip(forms.iter()) {
        push(
            &mut next,
            moved_form(alloc, block, off, moved, form, times)?,
        )?;
    }
    Ok(next)
}

// A loaded block that is more by a form, if that is known.
fn more_by(more: &More, form: Option<Form>) -> Option<More> {
    let form = form?;
    Some(More {
        line: more.line,
        at: more.at,
        form,
    })
}

// How much more a loaded block is after a whole block became more by a form, or `None` if that is not known.
fn moved_more(
    alloc: Global,
    blocks: &[Block],
    more: &More,
    moved: &Block,
    form: &Form,
    times: u128,
) -> Result<Option<More>, NoMemory> {
    let block = block_of(blocks, more.line);
    let own = Block {
        at: more.at,
        n: block.n,
    };
    if block == *moved {
        let form = more
            .form
            .moved(alloc, form, 0u128.wrapping_sub(times), block.n)?;
        return Ok(more_by(more, form));
    }
    if own == *moved {
        let form = more.form.moved(alloc, form, times, block.n)?;
        return Ok(more_by(more, form));
    }
    if is_more_touched(blocks, more, moved.at as u32, moved.n as u32) {
        return Ok(None);
    }
    Ok(Some(copied_more(alloc, more)?))
}

fn moved_mores(
    alloc: Global,
    blocks: &[Block],
    mores: &[More],
    moved: &Block,
    form: &Form,
    times: u128,
) -> Result<Vec<More>, NoMemory> {
    let mut next = Vec::new(alloc);
    for more in mores {
        if let Some(more) = moved_more(alloc, blocks, more, moved, form, times)? {
            push(&mut next, more)?;
        }
    }
    Ok(next)
}

// The origins that two lists agree on, of the bytes of the first list.
fn agreed(alloc: Global, sums: &Sums, other: &Sums, own: bool) -> Result<Vec<Known>, NoMemory> {
    let mut origins = Vec::new(alloc);
    for known in &sums.origins {
        let there = other.origin(known.at);
        let origin = if there == known.origin {
            there
        } else {
            Origin::Unknown
        };
        add_origin(&mut origins, own, known.at, origin)?;
    }
    Ok(origins)
}

// The number of listed origins of lower addresses.
fn origin_place(list: &[Known], at: u16) -> usize {
    let mut place = 0;
    for (i, known) in list.iter().enumerate() {
        if known.at < at {
            place = i + 1;
        }
    }
    place
}

// Lists the origin of a byte that is not listed yet, unless it goes without saying.
fn add_origin(list: &mut Vec<Known>, own: bool, at: u16, origin: Origin) -> Result<(), NoMemory> {
    if origin == origin_unlisted(own, at) {
        return Ok(());
    }
    let place = origin_place(list.as_slice(), at);
    if place > list.len() {
        return Ok(());
    }
    match list.insert(place, Known { at, origin }) {
        Ok(()) => Ok(()),
        Err(_) => Err(NoMemory),
    }
}

// Lists the origins of one list that another has not, where both agree.
fn add_agreed(list: &mut Vec<Known>, sums: &Sums, other: &Sums, own: bool) -> Result<(), NoMemory> {
    for known in &other.origins {
        if origin_in(sums.origins.as_slice(), known.at).is_none() {
            let there = sums.origin(known.at);
            let origin = if there == known.origin {
                there
            } else {
                Origin::Unknown
            };
            add_origin(list, own, known.at, origin)?;
        }
    }
    Ok(())
}

// The loaded blocks that another list has too.
fn common(alloc: Global, mores: &[More], others: &[More]) -> Result<Vec<More>, NoMemory> {
    let mut kept = Vec::new(alloc);
    for more in mores {
        if others.contains(more) {
            push(&mut kept, copied_more(alloc, more)?)?;
        }
    }
    Ok(kept)
}

fn same_form(alloc: Global, a: &Option<Form>, b: &Option<Form>) -> Result<Option<Form>, NoMemory> {
    if a == b {
        copied_form(alloc, a)
    } else {
        Ok(None)
    }
}

fn same_forms(
    alloc: Global,
    forms: &[Option<Form>],
    others: &[Option<Form>],
) -> Result<Vec<Option<Form>>, NoMemory> {
    let mut kept = Vec::new(alloc);
    for (a, b) in forms.iter().zip(others.iter()) {
        push(&mut kept, same_form(alloc, a, b)?)?;
    }
    Ok(kept)
}

impl Sums {
    /// Returns what is known as a frame begins, with this many lines.
    ///
    /// # Errors
    ///
    /// Returns `NoMemory` if it is out of memory.
    pub fn start(alloc: Global, lines: usize) -> Result<Sums, NoMemory> {
        Ok(Sums {
            own: true,
            origins: Vec::new(alloc),
            more: Vec::new(alloc),
            off: evens(alloc, lines)?,
        })
    }

    /// Returns a copy.
    ///
    /// # Errors
    ///
    /// Returns `NoMemory` if it is out of memory.
    pub fn copied(&self, alloc: Global) -> Result<Sums, NoMemory> {
        Ok(Sums {
            own: self.own,
            origins: Vec::from_slice(alloc, self.origins.as_slice())?,
            more: copied_mores(alloc, self.more.as_slice())?,
            off: copied_forms(alloc, self.off.as_slice())?,
        })
    }

    /// Returns whether there is no line of sums.
    pub fn is_idle(&self) -> bool {
        self.off.is_empty()
    }

    /// Returns the origin of a byte.
    pub fn origin(&self, at: u16) -> Origin {
        if self.off.is_empty() {
            return Origin::Unknown;
        }
        match origin_in(self.origins.as_slice(), at) {
            Some(origin) => origin,
            None => origin_unlisted(self.own, at),
        }
    }

    /// Sets the origin of a dynamic or public byte; static ones have none.
    ///
    /// # Errors
    ///
    /// Returns `NoMemory` if it is out of memory.
    pub fn set_origin(&mut self, at: u16, origin: Origin) -> Result<(), NoMemory> {
        if self.off.is_empty() || at < DYNAMIC {
            return Ok(());
        }
        self.origins.retain(|known| known.at != at);
        add_origin(&mut self.origins, self.own, at, origin)
    }

    /// Forgets the dynamic bytes from an address on.
    ///
    /// # Errors
    ///
    /// Returns `NoMemory` if it is out of memory.
    pub fn pop(&mut self, alloc: Global, blocks: &[Block], dt: u16) -> Result<(), NoMemory> {
        if self.off.is_empty() {
            return Ok(());
        }
        self.origins
            .retain(|known| known.at < dt || known.at >= PUBLIC);
        let mut left = Vec::new(alloc);
        for more in &self.more {
            if more.at as u32 + block_of(blocks, more.line).n as u32 <= dt as u32 {
                push(&mut left, copied_more(alloc, more)?)?;
            }
        }
        self.more = left;
        Ok(())
    }

    /// The public bytes are any.
    pub fn lose_public(&mut self) {
        self.own = false;
        self.origins.retain(|known| known.at < PUBLIC);
    }

    /// What waits is dropped.
    ///
    /// # Errors
    ///
    /// Returns `NoMemory` if it is out of memory.
    pub fn drop_waiting(&mut self, alloc: Global) -> Result<(), NoMemory> {
        self.off = evens(alloc, self.off.len())?;
        self.more = Vec::new(alloc);
        Ok(())
    }

    /// Bytes are written with something that is not known.
    ///
    /// # Errors
    ///
    /// Returns `NoMemory` if it is out of memory.
    pub fn write(
        &mut self,
        alloc: Global,
        blocks: &[Block],
        at: u32,
        n: u32,
    ) -> Result<(), NoMemory> {
        if self.off.is_empty() {
            return Ok(());
        }
        self.off = untouched_forms(alloc, blocks, self.off.as_slice(), at, n)?;
        self.more = untouched_mores(alloc, blocks, self.more.as_slice(), at, n)?;
        Ok(())
    }

    /// A whole block becomes more by a multiple of a form: that of lines, or a loaded one.
    ///
    /// # Errors
    ///
    /// Returns `NoMemory` if it is out of memory.
    pub fn move_block(
        &mut self,
        alloc: Global,
        blocks: &[Block],
        moved: &Block,
        form: &Form,
        times: u128,
    ) -> Result<(), NoMemory> {
        self.off = moved_forms(alloc, blocks, self.off.as_slice(), moved, form, times)?;
        self.more = moved_mores(alloc, blocks, self.more.as_slice(), moved, form, times)?;
        Ok(())
    }

    /// A whole block is loaded to an address.
    ///
    /// # Errors
    ///
    /// Returns `NoMemory` if it is out of memory.
    pub fn load(
        &mut self,
        alloc: Global,
        blocks: &[Block],
        from: &Block,
        to: u16,
    ) -> Result<(), NoMemory> {
        for (line, block) in blocks.iter().enumerate() {
            if block == from {
                push(
                    &mut self.more,
                    More {
                        line,
                        at: to,
                        form: Form::constant(alloc, 0),
                    },
                )?;
            }
        }
        Ok(())
    }

    /// Returns how much more the dynamic block at an address is than a static block, if that is known.
    ///
    /// # Errors
    ///
    /// Returns `NoMemory` if it is out of memory.
    pub fn more_of(
        &self,
        alloc: Global,
        blocks: &[Block],
        from: u16,
        to: &Block,
    ) -> Result<Option<Form>, NoMemory> {
        for more in &self.more {
            if more.at == from && block_of(blocks, more.line) == *to {
                return Ok(Some(more.form.copied(alloc)?));
            }
        }
        Ok(None)
    }

    /// Joins what is known.
    ///
    /// # Errors
    ///
    /// Returns `NoMemory` if it is out of memory.
    pub fn joined(&self, alloc: Global, other: &Sums) -> Result<Sums, NoMemory> {
        let own = self.own && other.own;
        let mut origins = agreed(alloc, self, other, own)?;
        add_agreed(&mut origins, self, other, own)?;
        Ok(Sums {
            own,
            origins,
            more: common(alloc, self.more.as_slice(), other.more.as_slice())?,
            off: same_forms(alloc, self.off.as_slice(), other.off.as_slice())?,
        })
    }
}
