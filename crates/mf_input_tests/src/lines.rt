use crate::sheet::Sheet;
use crate::shown::{condition, effect, expression};
use mf_model::{Action, Atom, Metric, Object, Symbol, TypeName, TypedTask, Valued};
use std::alloc::Global;

/// A task as text, with a line for each part: each name with what is declared of it, each start atom as the numbers
/// of its predicate and its objects, and each start value likewise.
pub(crate) fn task_lines(alloc: Global, task: &TypedTask) -> Option<Sheet> {
    let mut sheet = Sheet::new(alloc);
    add_types(&mut sheet, task.types.as_slice())?;
    add_objects(&mut sheet, task.objects.as_slice())?;
    add_symbols(&mut sheet, b"predicate ", task.predicates.as_slice())?;
    add_symbols(&mut sheet, b"function ", task.functions.as_slice())?;
    add_actions(&mut sheet, task.actions.as_slice())?;
    add_atoms(&mut sheet, task.atoms.as_slice())?;
    add_values(&mut sheet, task.values.as_slice())?;
    sheet.add(b"goal ")?;
    condition(&mut sheet, &task.goal)?;
    add_metric(&mut sheet, task.metric.as_ref())?;
    Some(sheet)
}

fn add_types(sheet: &mut Sheet, types: &[TypeName]) -> Option<()> {
    for own in types {
        sheet.add(b"type ")?;
        sheet.add(own.name.as_slice())?;
        sheet.add(b" - ")?;
        sheet.add_number(own.parent)?;
        sheet.add(b"\n")?;
    }
    Some(())
}

fn add_objects(sheet: &mut Sheet, objects: &[Object]) -> Option<()> {
    for object in objects {
        sheet.add(b"object ")?;
        sheet.add(object.name.as_slice())?;
        sheet.add(b" -")?;
        sheet.add_numbers(object.types.as_slice())?;
        sheet.add(b"\n")?;
    }
    Some(())
}

fn add_symbols(sheet: &mut Sheet, kind: &[u8], symbols: &[Symbol]) -> Option<()> {
    for symbol in symbols {
        sheet.add(kind)?;
        sheet.add(symbol.name.as_slice())?;
        sheet.add_types(symbol.parameters.as_slice())?;
        sheet.add(b"\n")?;
    }
    Some(())
}

fn add_actions(sheet: &mut Sheet, actions: &[Action]) -> Option<()> {
    for action in actions {
        sheet.add(b"action ")?;
        sheet.add(action.name.as_slice())?;
        sheet.add_types(action.parameters.as_slice())?;
        sheet.add(b"\nif ")?;
        condition(sheet, &action.condition)?;
        sheet.add(b"\nthen ")?;
        effect(sheet, &action.effect)?;
        sheet.add(b"\n")?;
    }
    Some(())
}

fn add_atoms(sheet: &mut Sheet, atoms: &[Atom]) -> Option<()> {
    for atom in atoms {
        sheet.add(b"atom ")?;
        sheet.add_number(atom.predicate)?;
        sheet.add_numbers(atom.objects.as_slice())?;
        sheet.add(b"\n")?;
    }
    Some(())
}

fn add_values(sheet: &mut Sheet, values: &[Valued]) -> Option<()> {
    for valued in values {
        sheet.add(b"value ")?;
        sheet.add_number(valued.cell.function)?;
        sheet.add_numbers(valued.cell.objects.as_slice())?;
        sheet.add(b" = ")?;
        sheet.add_fraction(valued.value)?;
        sheet.add(b"\n")?;
    }
    Some(())
}

fn add_metric(sheet: &mut Sheet, metric: Option<&Metric>) -> Option<()> {
    let Some(metric) = metric else {
        return Some(());
    };
    if metric.least {
        sheet.add(b"\nleast ")?;
    } else {
        sheet.add(b"\nmost ")?;
    }
    expression(sheet, &metric.value)
}
