ghost use Rattle.mf_validator.specs.Lexicons.{Knows, Lists, number_in};
ghost use Rattle.std.specs.Prelude.{◌≡◌, ◌≤◌, ◌++◌, ℕ, List, [], ◌∷◌, IfOk, OnOk, length, map};

use mf_model::{Action, Object, Text, TypedTask};
use mf_names::Names;
use std::alloc::{AllocError, Global};

/// Numbers by name: of several with one name the first counts.
#[derive(Drop)]
pub(crate) struct Directory {
    names: Names,
    numbers: Vec<u16>,
}

impl Directory {
    fn new(alloc: Global) -> Directory
        ensures { Lists result [] }
    {
        Directory {
            names: Names::new(alloc),
            numbers: Vec::new(alloc),
        }
    }

    // Enters the name behind so many others, unless it is there.
    fn enter(&mut self, alloc: Global, name: &Text, number: u16) -> Result<(), AllocError>
        ensures { OnOk result ((names : List (List ℕ)) → Lists self.old names → number ≡ length names → Lists self.new (names ++ name.now ∷ [])) }
    {
        if self.names.find(name.as_slice()).is_some() {
            return Ok(());
        }
        self.names.add(alloc, name)?;
        self.numbers.push(number)?;
        Ok(())
    }

    pub(crate) fn find(&self, name: &[u8]) -> Option<u16>
        ensures { result ≡ number_in self.now name.now }
    {
        let place = self.names.find(name)?;
        self.numbers.get(place).copied()
    }
}

/// A task with the names of its actions and objects.
#[derive(Drop)]
pub(crate) struct Lexicon<'a> {
    pub(crate) task: &'a TypedTask,
    pub(crate) actions: Directory,
    pub(crate) objects: Directory,
}

/// Enters the names of the task.
pub(crate) fn read_names(alloc: Global, task: &TypedTask) -> Result<Lexicon<'_>, AllocError>
    requires actions { length task.now.actions ≤ 65535 }
    requires objects { length task.now.objects ≤ 65535 }
    ensures knows { IfOk result Knows }
    ensures task { IfOk result (λ lexicon. lexicon.task.now ≡ task.now) }
{
    Ok(Lexicon {
        task,
        actions: list_actions(alloc, task.actions.as_slice())?,
        objects: list_objects(alloc, task.objects.as_slice())?,
    })
}

fn list_actions(alloc: Global, actions: &[Action]) -> Result<Directory, AllocError>
    requires { length actions.now ≤ 65535 }
    ensures { IfOk result (λ directory. Lists directory (map (λ action. action.name) actions.now)) }
{
    let mut directory = Directory::new(alloc);
    for (number, action) in actions.iter().enumerate() {
        directory.enter(alloc, &action.name, number as u16)?;
    }
    Ok(directory)
}

fn list_objects(alloc: Global, objects: &[Object]) -> Result<Directory, AllocError>
    requires { length objects.now ≤ 65535 }
    ensures { IfOk result (λ directory. Lists directory (map (λ object. object.name) objects.now)) }
{
    let mut directory = Directory::new(alloc);
    for (number, object) in objects.iter().enumerate() {
        directory.enter(alloc, &object.name, number as u16)?;
    }
    Ok(directory)
}
