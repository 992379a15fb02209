use mf_model::Text;

/// What the words of a call ask for.
#[derive(Debug, Drop)]
pub enum Request {
    /// Search for a plan of the task of a domain file and a problem file, with at most `budget` expansions.
    Plan {
        domain: Text,
        problem: Text,
        budget: u64,
    },
    /// Judge the plan of a plan file by the task of a domain file and a problem file.
    Validate {
        domain: Text,
        problem: Text,
        plan: Text,
    },
    /// List the live instances of the task of a domain file and a problem file.
    Ground {
        domain: Text,
        problem: Text,
    },
}
