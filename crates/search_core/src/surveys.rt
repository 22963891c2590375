//! The survey.
ghost use Rattle.std.specs.Prelude.{◌≡◌, ◌+◌, ◌<◌, ◌≤◌, ◌^◌, ◌∷◌, [], IfOk, OnOk, length};
ghost use Rattle.search_core.specs.Kept.{AreKept, HasCome};
ghost use Rattle.search_core.specs.Node.{ArePlaces, trails_of};
ghost use Rattle.search_core.specs.Survey.{IsSurvey, moves_of};
ghost use Rattle.search_core.specs.Picked.{ArePicked, HasPicked};

use crate::answers::{Answer, Survey};
use crate::by_breadth::look_on;
use crate::nodes::Nodes;
use crate::places::{Labelled, Maze, Visit};
use indexmap::IndexSet;
use std::alloc::{AllocError, Global};

/// The labels to which lists of at most `most` moves lead, each by the first list that leads to it.
/// At most `room` places are gone on from, and no more once more than `room` were seen.
///
/// # Errors
///
/// `AllocError` where no memory was found, here or by the maze.
pub fn survey<M: Labelled>(
    alloc: Global,
    maze: &M,
    most: u32,
    room: u32,
) -> Result<Survey, AllocError>
    requires fits { M.fits maze.now }
    requires few { most < 2 ^ 20 }
    ensures { IfOk result (λ survey. IsSurvey (M.moves maze.now) (M.label maze.now) most survey) }
{
    let mut nodes = start(alloc, maze)?;
    let survey = survey_from(alloc, maze, &mut nodes, most, room);
    drop(nodes);
    survey
}

/// The place of no move alone.
fn start<M: Maze>(alloc: Global, maze: &M) -> Result<Nodes, AllocError>
    requires { M.fits maze.now }
    ensures later { IfOk result (λ nodes. nodes.later.items ≡ []) }
    ensures kept { IfOk result (λ nodes. AreKept (M.code maze.now) ([] ∷ []) nodes.codes) }
{
    let code = maze.code(alloc, &[])?;
    Nodes::new(alloc, code.as_slice())
}

/// The same places, with a goal that is met nowhere.
#[derive(Drop)]
pub struct Unmet<'a, M> {
    pub maze: &'a M,
}

impl<'a, M: Maze> Maze for Unmet<'a, M> {
    ghost fits = { λ s. M.fits s.maze.now };

    ghost moves = { λ s. M.moves s.maze.now };

    ghost meets = { λ s p. ⊥ };

    ghost code = { λ s p. M.code s.maze.now p };

    ghost code_goes_on = { λ s h p q m a b e. M.code_goes_on s.maze.now h p q m a b e };

    ghost goal_goes_on = { λ s h p q m a b e never. never };

    fn moves(&self) -> u32 {
        self.maze.moves()
    }

    fn visit(&self, alloc: Global, path: &[u32]) -> Result<Visit, AllocError> {
        let code = self.maze.code(alloc, path)?;
        Ok(Visit {
            met: Some(false),
            code,
        })
    }

    fn code(&self, alloc: Global, path: &[u32]) -> Result<Vec<u64>, AllocError> {
        self.maze.code(alloc, path)
    }
}

/// The survey from the first place on, by a search for a goal that is met nowhere.
fn survey_from<M: Labelled>(
    alloc: Global,
    maze: &M,
    nodes: &mut Nodes,
    most: u32,
    room: u32,
) -> Result<Survey, AllocError>
    requires fits { M.fits maze.now }
    requires few { most < 2 ^ 20 }
    requires come { HasCome (M.moves maze.now) most (λ p. ⊥) (M.code maze.now)
        (trails_of nodes.old.later.items) nodes.old.codes 0 0 }
    ensures { IfOk result (λ survey. IsSurvey (M.moves maze.now) (M.label maze.now) most survey) }
{
    let answer = look_on(alloc, &Unmet { maze }, nodes, most, room)?;
    match answer {
        Answer::NoneAtAll(places) => {
            let paths = pick(alloc, maze, nodes)?;
            Ok(Survey::All { paths, places })
        }
        Answer::NoneWithin(places) => {
            let paths = pick(alloc, maze, nodes)?;
            Ok(Survey::Within { paths, places })
        }
        Answer::Found(_) => unreachable!(),
        Answer::NoRoom => Ok(Survey::NoRoom),
    }
}

/// The moves to the places that were seen, of each label the first.
fn pick<M: Labelled>(alloc: Global, maze: &M, nodes: &Nodes) -> Result<Vec<Vec<u32>>, AllocError>
    requires fits { M.fits maze.now }
    requires places { ArePlaces (M.moves maze.now) (trails_of nodes.now.later.items) }
    ensures { IfOk result (λ paths. ArePicked (M.label maze.now) (trails_of nodes.now.later.items)
        (length (trails_of nodes.now.later.items)) (moves_of paths.items)) }
{
    let mut paths = Vec::new(alloc);
    let mut labels = IndexSet::new(alloc);
    let picked = pick_all(alloc, maze, nodes, &mut paths, &mut labels);
    drop(labels);
    match picked {
        Ok(()) => Ok(paths),
        Err(error) => {
            drop(paths);
            Err(error)
        }
    }
}

/// Picks one place after the other, where none is picked.
fn pick_all<M: Labelled>(
    alloc: Global,
    maze: &M,
    nodes: &Nodes,
    paths: &mut Vec<Vec<u32>>,
    labels: &mut IndexSet<Vec<u64>>,
) -> Result<(), AllocError>
    requires fits { M.fits maze.now }
    requires places { ArePlaces (M.moves maze.now) (trails_of nodes.now.later.items) }
    requires none { paths.old.items ≡ [] }
    requires no_label { labels.old.keys ≡ [] }
    ensures { OnOk result (ArePicked (M.label maze.now) (trails_of nodes.now.later.items)
        (length (trails_of nodes.now.later.items)) (moves_of paths.new.items)) }
{
    let seen = nodes.count();
    for at in 0..seen {
        pick_place(alloc, maze, nodes, at as usize, paths, labels)?;
    }
    Ok(())
}

/// Picks the place of this number too, where it has a label that is not among `labels`, those of the
/// places that were picked.
fn pick_place<M: Labelled>(
    alloc: Global,
    maze: &M,
    nodes: &Nodes,
    at: usize,
    paths: &mut Vec<Vec<u32>>,
    labels: &mut IndexSet<Vec<u64>>,
) -> Result<(), AllocError>
    requires fits { M.fits maze.now }
    requires places { ArePlaces (M.moves maze.now) (trails_of nodes.now.later.items) }
    requires there { at ≤ length nodes.now.later.items }
    requires so_far { HasPicked (M.label maze.now) (trails_of nodes.now.later.items) at
        (moves_of paths.old.items) labels.old.keys }
    ensures { OnOk result (HasPicked (M.label maze.now) (trails_of nodes.now.later.items) (at + 1)
        (moves_of paths.new.items) labels.new.keys) }
{
    let path = nodes.path(alloc, at)?;
    let Some(label) = maze.label(alloc, path.as_slice())? else {
        return Ok(());
    };
    let is_new = labels.insert(label)?;
    if !is_new {
        return Ok(());
    }
    paths.push(path)?;
    Ok(())
}
