use mf_input::{InputFault, RefusalKind, read_task};
use std::alloc::{AllocError, Global};

const DOMAIN: &[u8] = b"(define (domain d))";

const PROBLEM: &[u8] = b"(define (problem p) (:domain d) (:goal ()))";

/// A file with numbered names, and the place of the last of them.
#[derive(Drop)]
struct Numbered {
    text: Vec<u8>,
    last: usize,
}

/// How a file with numbered names is written.
#[derive(Clone, Copy)]
struct Written {
    before: &'static [u8],
    open: &'static [u8],
    close: &'static [u8],
    after: &'static [u8],
}

impl Numbered {
    fn add(&mut self, alloc: Global, written: Written, number: u32) -> Result<(), AllocError> {
        let digits = format!(in alloc; "{number}")?;
        self.text.extend_from_slice(written.open)?;
        self.last = self.text.len();
        self.text.push(b'n')?;
        self.text.extend_from_slice(digits.as_bytes())?;
        self.text.extend_from_slice(written.close)
    }
}

fn file_with(alloc: Global, written: Written, count: u32) -> Result<Numbered, AllocError> {
    let mut file = Numbered {
        text: Vec::new(alloc),
        last: 0,
    };
    file.text.extend_from_slice(written.before)?;
    for number in 0..count {
        file.add(alloc, written, number)?;
    }
    file.text.extend_from_slice(written.after)?;
    Ok(file)
}

/// The place of the item beyond a limit, for which two files are refused.
fn beyond(alloc: Global, domain: &[u8], problem: &[u8]) -> Option<usize> {
    if domain.len() > 16_777_216 || problem.len() > 16_777_216 {
        return None;
    }
    match read_task(alloc, domain, problem) {
        Err(InputFault::Refused { refusal }) if is_too_many(refusal.kind) => {
            Some(refusal.at as usize)
        }
        _ => None,
    }
}

fn is_too_many(kind: RefusalKind) -> bool {
    matches!(kind, RefusalKind::TooMany)
}

/// Whether a domain is refused at the last of so many names.
fn ends_domain(alloc: Global, written: Written, count: u32) -> bool {
    match file_with(alloc, written, count) {
        Ok(file) => beyond(alloc, file.text.as_slice(), PROBLEM) == Some(file.last),
        Err(_) => false,
    }
}

/// Whether a problem is refused at the last of so many names.
fn ends_problem(alloc: Global, written: Written, count: u32) -> bool {
    match file_with(alloc, written, count) {
        Ok(file) => beyond(alloc, DOMAIN, file.text.as_slice()) == Some(file.last),
        Err(_) => false,
    }
}

const TYPES: Written = Written {
    before: b"(define (domain d) (:types ",
    open: b" ",
    close: b" ",
    after: b"))",
};

/// `object` does not count, and `b` does, which is a parent alone.
const TYPES_WITH_A_PARENT: Written = Written {
    before: b"(define (domain d) (:types object - object a - b ",
    open: b" ",
    close: b" ",
    after: b"))",
};

const CONSTANTS: Written = Written {
    before: b"(define (domain d) (:constants ",
    open: b" ",
    close: b" ",
    after: b"))",
};

const PREDICATES: Written = Written {
    before: b"(define (domain d) (:predicates ",
    open: b"(",
    close: b")",
    after: b"))",
};

const FUNCTIONS: Written = Written {
    before: b"(define (domain d) (:functions ",
    open: b"(",
    close: b")",
    after: b"))",
};

const ACTIONS: Written = Written {
    before: b"(define (domain d) ",
    open: b"(:action ",
    close: b")",
    after: b")",
};

const OBJECTS: Written = Written {
    before: b"(define (problem p) (:domain d) (:goal ()) (:objects ",
    open: b" ",
    close: b" ",
    after: b"))",
};

#[test]
fn the_first_name_beyond_each_limit(rt: HostRuntime) {
    let alloc = rt.alloc();
    assert!(rt; ends_domain(alloc, TYPES, 10_001));
    assert!(rt; ends_domain(alloc, TYPES_WITH_A_PARENT, 9_999));
    assert!(rt; ends_domain(alloc, CONSTANTS, 65_536));
    assert!(rt; ends_domain(alloc, PREDICATES, 10_001));
    assert!(rt; ends_domain(alloc, FUNCTIONS, 10_001));
    assert!(rt; ends_domain(alloc, ACTIONS, 1_001));
    assert!(rt; ends_problem(alloc, OBJECTS, 65_536));
}
