// Linear forms in the public bytes of a frame's beginning, computed modulo 256 to the 16.
ghost use Rattle.std.specs.Prelude.{◌≡◌, ◌⊎◌, ℕ, ◌%◌, ◌≤◌, true, OnOk, IfOk};
ghost use Rattle.model_sums.specs.Forms as forms;
ghost use Rattle.prove_forms.specs.Forms.{modulus, term_value, terms_value, form_value, FormIs, place_in, wrapped_term, wrapped_terms, multiples, IsConstant, IsNothing};

use crate::numbers::{LONGEST, is_multiple, mask, sum};
use model_device::NoMemory;
use prove_facts::push;
use std::alloc::Global;

/// A multiple of a public byte, which is named by its place in the public segment.
#[derive(Clone, Copy, PartialEq, Eq, Debug)]
pub struct Term {
    pub at: u32,
    pub factor: u128,
}

/// A number: a constant and multiples of public bytes, each of them modulo 256 to the 16.
#[derive(Drop)]
pub struct Form {
    pub constant: u128,
    pub terms: Vec<Term>,
    /// Whether the constant and each factor are the numbers themselves.
    pub exact: bool,
}

// Returns the place of the first term of a public byte, or the number of terms if it has none.
fn place_of(terms: &[Term], at: u32) -> usize
    ensures { result ≡ place_in at (terms_value terms.now) }
{
    for (index, term) in terms.iter().enumerate() {
        if term.at == at {
            return index;
        }
    }
    terms.len()
}

// Adds a term to others.
fn add_term(terms: &mut Vec<Term>, term: Term) -> Result<(), NoMemory>
    ensures { OnOk result (terms_value terms.new.items
        ≡ wrapped_term (term_value term) (terms_value terms.old.items)) }
{
    let place = place_of(terms.as_slice(), term.at);
    if place >= terms.len() {
        return push(terms, term);
    }
    let factor = terms[place].factor.wrapping_add(term.factor);
    terms[place] = Term {
        at: term.at,
        factor,
    };
    Ok(())
}

// Adds terms to others, the last of them first.
fn add_terms(terms: &mut Vec<Term>, more: &[Term]) -> Result<(), NoMemory>
    ensures { OnOk result (terms_value terms.new.items
        ≡ wrapped_terms (terms_value more.now) (terms_value terms.old.items)) }
{
    let mut left = more.len();
    while left > 0 {
        left -= 1;
        add_term(terms, more[left])?;
    }
    Ok(())
}

// Returns terms with their factors multiplied.
fn multiplied(alloc: Global, terms: &[Term], factor: u128) -> Result<Vec<Term>, NoMemory>
    ensures { IfOk result (λ many. terms_value many.items ≡ multiples factor (terms_value terms.now)) }
{
    let mut many = Vec::new(alloc);
    for term in terms {
        let product = term.factor.wrapping_mul(factor);
        push(
            &mut many,
            Term {
                at: term.at,
                factor: product,
            },
        )?;
    }
    Ok(many)
}

// Returns whether each factor is zero modulo 256 to the n.
fn are_zero(terms: &[Term], n: u16) -> bool
    ensures { result ≡ true → forms.are_zero n (terms_value terms.now) ≡ true }
{
    for term in terms {
        if !is_multiple(term.factor, n) {
            return false;
        }
    }
    true
}

impl Form {
    /// Returns a constant.
    pub fn number(alloc: Global, constant: u128) -> Form
        ensures { FormIs result (forms.number constant) }
    {
        Form {
            constant,
            terms: Vec::new(alloc),
            exact: true,
        }
    }

    /// Returns the public byte at a place of the public segment, as the frame began.
    ///
    /// # Errors
    ///
    /// Returns `NoMemory` if it is out of memory.
    pub fn public_byte(alloc: Global, at: u32) -> Result<Form, NoMemory>
        ensures { IfOk result (λ byte. FormIs byte (forms.public_byte at)) }
    {
        let mut terms = Vec::new(alloc);
        push(&mut terms, Term { at, factor: 1 })?;
        Ok(Form {
            constant: 0,
            terms,
            exact: true,
        })
    }

    /// Returns a copy.
    ///
    /// # Errors
    ///
    /// Returns `NoMemory` if it is out of memory.
    pub fn copied(&self, alloc: Global) -> Result<Form, NoMemory>
        ensures value { IfOk result (λ copy. form_value copy ≡ form_value self.now) }
        ensures exact { IfOk result (λ copy. copy.exact ≡ self.now.exact) }
        ensures same { IfOk result (λ copy. (f : forms.Form) → FormIs self.now f → FormIs copy f) }
    {
        Ok(Form {
            constant: self.constant,
            terms: Vec::from_slice(alloc, self.terms.as_slice())?,
            exact: self.exact,
        })
    }

    // Returns whether it is a constant, as it is.
    fn is_constant(&self) -> bool
        ensures { result ≡ true → IsConstant self.now }
    {
        self.exact && self.terms.is_empty()
    }

    // Returns whether it is the number zero, as it is.
    fn is_nothing(&self) -> bool
        ensures { result ≡ true → IsNothing self.now }
    {
        self.constant == 0 && self.is_constant()
    }

    // Returns whether the sum with another is exact, since that is nothing.
    fn is_kept_by(&self, other: &Form) -> bool
        ensures { result ≡ true → (self.now.exact ≡ true) × IsNothing other.now }
    {
        self.exact && other.is_nothing()
    }

    /// Returns the sum of two forms.
    ///
    /// # Errors
    ///
    /// Returns `NoMemory` if it is out of memory.
    pub fn plus(&self, alloc: Global, other: &Form) -> Result<Form, NoMemory>
        ensures { IfOk result (λ sum. (f g : forms.Form) → FormIs self.now f → FormIs other.now g
            → FormIs sum (forms.plus f g)) }
    {
        let mut terms = Vec::from_slice(alloc, self.terms.as_slice())?;
        add_terms(&mut terms, other.terms.as_slice())?;
        Ok(Form {
            constant: sum(self.constant, other.constant),
            terms,
            exact: self.is_kept_by(other),
        })
    }

    // Returns a multiple, by any number that is a factor modulo 256 to the 16.
    pub(crate) fn multiple(&self, alloc: Global, factor: u128) -> Result<Form, NoMemory>
        ensures { IfOk result (λ many. (k : ℕ) (f : forms.Form) → factor % modulus ≡ k % modulus → FormIs self.now f
            → FormIs many (forms.times k f)) }
    {
        Ok(Form {
            constant: self.constant.wrapping_mul(factor),
            terms: multiplied(alloc, self.terms.as_slice(), factor)?,
            exact: self.is_nothing(),
        })
    }

    /// Returns a multiple.
    ///
    /// # Errors
    ///
    /// Returns `NoMemory` if it is out of memory.
    pub fn times(&self, alloc: Global, factor: u128) -> Result<Form, NoMemory>
        ensures { IfOk result (λ many. (f : forms.Form) → FormIs self.now f → FormIs many (forms.times factor f)) }
    {
        self.multiple(alloc, factor)
    }

    /// Returns what is as good as minus the form, modulo 256 to the n.
    ///
    /// # Errors
    ///
    /// Returns `NoMemory` if it is out of memory.
    pub fn negative(&self, alloc: Global, n: u16) -> Result<Form, NoMemory>
        ensures { IfOk result (λ less. (f : forms.Form) → FormIs self.now f → FormIs less (forms.negative n f)) }
    {
        self.multiple(alloc, mask(n))
    }

    // Returns whether what it is modulo 256 to the 16 decides what it is modulo 256 to the n.
    fn decides(&self, n: u16) -> bool
        ensures { result ≡ true → (n ≤ 16) ⊎ (self.now.exact ≡ true) }
    {
        n <= LONGEST || self.exact
    }

    /// Returns whether it is zero modulo 256 to the n, whatever the public bytes were. Of numbers of more than 16 bytes
    /// `false` says nothing.
    pub fn is_zero(&self, n: u16) -> bool
        ensures { result ≡ true → (f : forms.Form) → FormIs self.now f → forms.is_zero n f ≡ true }
    {
        if !self.decides(n) {
            return false;
        }
        is_multiple(self.constant, n) && are_zero(self.terms.as_slice(), n)
    }

    // Returns whether two forms are the same constant, as they are.
    fn is_same_constant(&self, other: &Form) -> bool
        ensures { result ≡ true → (n : ℕ) (f g : forms.Form) → FormIs self.now f → FormIs other.now g
            → forms.same_forms n f g ≡ true }
    {
        if !self.is_constant() {
            return false;
        }
        if !other.is_constant() {
            return false;
        }
        self.constant == other.constant
    }

    /// Returns whether two forms are the same modulo 256 to the n, whatever the public bytes were. Of numbers of more
    /// than 16 bytes `false` says nothing: only constants are compared.
    ///
    /// # Errors
    ///
    /// Returns `NoMemory` if it is out of memory.
    pub fn same(&self, alloc: Global, n: u16, other: &Form) -> Result<bool, NoMemory>
        ensures { IfOk result (λ same. same ≡ true → (f g : forms.Form) → FormIs self.now f → FormIs other.now g
            → forms.same_forms n f g ≡ true) }
    {
        if n > LONGEST {
            return Ok(self.is_same_constant(other));
        }
        let less = other.negative(alloc, n)?;
        let difference = self.plus(alloc, &less)?;
        Ok(difference.is_zero(n))
    }
}
