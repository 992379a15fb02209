use mf_fraction::{Frac, write};
use mf_model::{Term, Types};
use std::alloc::Global;

/// A text that grows word by word. Each call answers `None` where memory runs out.
#[derive(Drop)]
pub(crate) struct Sheet {
    alloc: Global,
    text: Vec<u8>,
}

impl Sheet {
    pub(crate) fn new(alloc: Global) -> Sheet {
        Sheet {
            alloc,
            text: Vec::new(alloc),
        }
    }

    pub(crate) fn as_slice(&self) -> &[u8] {
        self.text.as_slice()
    }

    pub(crate) fn add(&mut self, bytes: &[u8]) -> Option<()> {
        self.text.extend_from_slice(bytes).ok()
    }

    pub(crate) fn add_number(&mut self, number: u16) -> Option<()> {
        let digits = format!(in self.alloc; "{number}").ok()?;
        self.add(digits.as_bytes())
    }

    pub(crate) fn add_fraction(&mut self, number: Frac) -> Option<()> {
        write(self.alloc, number, &mut self.text).ok()
    }

    /// Numbers with a blank before each.
    pub(crate) fn add_numbers(&mut self, numbers: &[u16]) -> Option<()> {
        for number in numbers {
            self.add(b" ")?;
            self.add_number(*number)?;
        }
        Some(())
    }

    /// A variable as `?` and its place, an object as its number.
    fn add_term(&mut self, term: Term) -> Option<()> {
        match term {
            Term::Variable(place) => {
                self.add(b"?")?;
                self.add_number(u16::from(place))
            }
            Term::Object(number) => self.add_number(number),
        }
    }

    pub(crate) fn add_same(&mut self, left: Term, right: Term) -> Option<()> {
        self.add(b"(same ")?;
        self.add_term(left)?;
        self.add(b" ")?;
        self.add_term(right)?;
        self.add(b")")
    }

    /// The number of a predicate or a function, and its terms.
    pub(crate) fn add_use(
        &mut self,
        open: &[u8],
        number: u16,
        terms: &[Term],
        close: &[u8],
    ) -> Option<()> {
        self.add(open)?;
        self.add_number(number)?;
        for term in terms {
            self.add(b" ")?;
            self.add_term(*term)?;
        }
        self.add(close)
    }

    /// The types of each parameter, as ` (1 2) (3)`.
    pub(crate) fn add_types(&mut self, parameters: &[Types]) -> Option<()> {
        for types in parameters {
            self.add(b" (")?;
            self.add_choice(types.as_slice())?;
            self.add(b")")?;
        }
        Some(())
    }

    fn add_choice(&mut self, types: &[u16]) -> Option<()> {
        if let [first, others @ ..] = types {
            self.add_number(*first)?;
            self.add_numbers(others)?;
        }
        Some(())
    }

    /// The head of a quantifier, the types of its variables and a blank.
    pub(crate) fn add_quantifier(&mut self, head: &[u8], variables: &[Types]) -> Option<()> {
        self.add(head)?;
        self.add_types(variables)?;
        self.add(b" ")
    }
}
