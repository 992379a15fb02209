use crate::sheet::Sheet;
use mf_model::{Cond, Effect, Expr, Op, Relation};

// A function with its terms stands as `[0 ?1]`, a predicate with its terms as `(0 ?1)`.

#[cycle(expression)]
pub(crate) fn expression(sheet: &mut Sheet, whole: &Expr) -> Option<()> {
    match whole {
        Expr::Number(number) => sheet.add_fraction(*number),
        Expr::Function { function, terms } => {
            sheet.add_use(b"[", *function, terms.as_slice(), b"]")
        }
        Expr::Sum { parts } => expressions(sheet, b"(+", parts.as_slice()),
        Expr::Difference { left, right } => {
            sheet.add(b"(- ")?;
            expression(sheet, left.get())?;
            sheet.add(b" ")?;
            expression(sheet, right.get())?;
            sheet.add(b")")
        }
        Expr::Negative { part } => {
            sheet.add(b"(neg ")?;
            expression(sheet, part.get())?;
            sheet.add(b")")
        }
        Expr::Product { parts } => expressions(sheet, b"(*", parts.as_slice()),
        Expr::Quotient { left, right } => {
            sheet.add(b"(/ ")?;
            expression(sheet, left.get())?;
            sheet.add(b" ")?;
            expression(sheet, right.get())?;
            sheet.add(b")")
        }
        Expr::TotalTime => sheet.add(b"steps"),
    }
}

#[cycle(expression)]
fn expressions(sheet: &mut Sheet, head: &[u8], parts: &[Expr]) -> Option<()> {
    sheet.add(head)?;
    for part in parts {
        sheet.add(b" ")?;
        expression(sheet, part)?;
    }
    sheet.add(b")")
}

fn relation_word(relation: Relation) -> &'static [u8] {
    match relation {
        Relation::Less => b"<",
        Relation::AtMost => b"<=",
        Relation::Equal => b"=",
        Relation::AtLeast => b">=",
        Relation::More => b">",
    }
}

fn comparison(sheet: &mut Sheet, relation: Relation, left: &Expr, right: &Expr) -> Option<()> {
    sheet.add(b"(")?;
    sheet.add(relation_word(relation))?;
    sheet.add(b" ")?;
    expression(sheet, left)?;
    sheet.add(b" ")?;
    expression(sheet, right)?;
    sheet.add(b")")
}

#[cycle(condition)]
pub(crate) fn condition(sheet: &mut Sheet, whole: &Cond) -> Option<()> {
    match whole {
        Cond::Atom { predicate, terms } => {
            sheet.add_use(b"(", *predicate, terms.as_slice(), b")")
        }
        Cond::Same { left, right } => sheet.add_same(*left, *right),
        Cond::Compare {
            relation,
            left,
            right,
        } => comparison(sheet, *relation, left, right),
        Cond::Not { part } => {
            sheet.add(b"(not ")?;
            condition(sheet, part.get())?;
            sheet.add(b")")
        }
        Cond::And { parts } => conditions(sheet, b"(and", parts.as_slice()),
        Cond::Or { parts } => conditions(sheet, b"(or", parts.as_slice()),
        Cond::Imply { left, right } => {
            sheet.add(b"(imply ")?;
            condition(sheet, left.get())?;
            sheet.add(b" ")?;
            condition(sheet, right.get())?;
            sheet.add(b")")
        }
        Cond::All { variables, part } => {
            sheet.add_quantifier(b"(all", variables.as_slice())?;
            condition(sheet, part.get())?;
            sheet.add(b")")
        }
        Cond::Any { variables, part } => {
            sheet.add_quantifier(b"(any", variables.as_slice())?;
            condition(sheet, part.get())?;
            sheet.add(b")")
        }
    }
}

#[cycle(condition)]
fn conditions(sheet: &mut Sheet, head: &[u8], parts: &[Cond]) -> Option<()> {
    sheet.add(head)?;
    for part in parts {
        sheet.add(b" ")?;
        condition(sheet, part)?;
    }
    sheet.add(b")")
}

fn op_word(op: Op) -> &'static [u8] {
    match op {
        Op::Assign => b"(assign ",
        Op::Increase => b"(increase ",
        Op::Decrease => b"(decrease ",
        Op::ScaleUp => b"(scale-up ",
        Op::ScaleDown => b"(scale-down ",
    }
}

#[cycle(effect)]
pub(crate) fn effect(sheet: &mut Sheet, whole: &Effect) -> Option<()> {
    match whole {
        Effect::Add { predicate, terms } => {
            sheet.add_use(b"(add ", *predicate, terms.as_slice(), b")")
        }
        Effect::Delete { predicate, terms } => {
            sheet.add_use(b"(delete ", *predicate, terms.as_slice(), b")")
        }
        Effect::Change {
            op,
            function,
            terms,
            value,
        } => {
            sheet.add(op_word(*op))?;
            sheet.add_use(b"[", *function, terms.as_slice(), b"] ")?;
            expression(sheet, value)?;
            sheet.add(b")")
        }
        Effect::Group { parts } => effects(sheet, parts.as_slice()),
        Effect::Each { variables, part } => {
            sheet.add_quantifier(b"(each", variables.as_slice())?;
            effect(sheet, part.get())?;
            sheet.add(b")")
        }
        Effect::When {
            condition: before,
            part,
        } => {
            sheet.add(b"(when ")?;
            condition(sheet, before)?;
            sheet.add(b" ")?;
            effect(sheet, part.get())?;
            sheet.add(b")")
        }
    }
}

#[cycle(effect)]
fn effects(sheet: &mut Sheet, parts: &[Effect]) -> Option<()> {
    sheet.add(b"(do")?;
    for part in parts {
        sheet.add(b" ")?;
        effect(sheet, part)?;
    }
    sheet.add(b")")
}
