//! What a change does to the names of directories.
ghost use Rattle.std.specs.Prelude.{◌≡◌, ℕ, false, true, Some, IsTrue, IfErr, IfOk};
ghost use Rattle.std.specs.FinMap as map;
ghost use Rattle.sn_directories.specs.Told.{TellsDirectories};
ghost use Rattle.sn_limits.specs.Versions.{limits_written};
ghost use Rattle.sn_logged.specs.Moves.{moves_of, renaming};
ghost use Rattle.sn_model.specs.Changes.{apply, take_link};
ghost use Rattle.sn_model.specs.NameTree.{IsTree};
ghost use Rattle.sn_model.specs.Tree.{Tree, link_to};
ghost use Rattle.sn_logged.specs.declared.moving.NameMoves.TheVariants.{Move};
ghost use Rattle.sn_model.specs.declared.link.Link.{Link};
ghost use Rattle.sn_model.specs.declared.change.Change.{Change as TheChange};
ghost use Rattle.sn_walk.specs.Frame.{Leaves};

use sn_applies::NamedTree;
use sn_directories::Directories;
use sn_model::Change;

/// What a change does to the names of directories.
#[derive(Clone, Copy)]
pub(crate) enum NameMoves {
    /// They stay.
    Stay,
    /// A directory gets a name, of this number.
    Gain {
        directory: u16,
        number: u16,
    },
    /// A directory loses a name.
    Lose {
        directory: u16,
    },
    /// A name goes from one directory to another, or stays in it, and what has the new name loses it.
    Move {
        from: u16,
        to: u16,
        number: u16,
        replaces: bool,
    },
}

// What a rename does.
fn renaming<T: NamedTree>(
    tree: &mut T,
    from: u16,
    old_name: &[u8],
    to: u16,
    new_name: &[u8],
) -> Result<NameMoves, T::Fault>
    requires { T.holds tree.old }
    ensures left { Leaves T.holds T.follows T.is_told T.shows tree.old tree.new }
    ensures found { IsTrue T.is_told → IfOk result (λ moves. moves ≡ renaming (T.shows tree.old) (link_to from old_name.now) (link_to to new_name.now)) }
    ensures cause { IfErr result (λ f. T.causes tree.old tree.new f) }
{
    let Some(number) = tree.number(from, old_name)? else {
        return Ok(NameMoves::Stay);
    };
    let target = tree.number(to, new_name)?;
    if target == Some(number) {
        return Ok(NameMoves::Stay);
    }
    Ok(NameMoves::Move {
        from,
        to,
        number,
        replaces: target.is_some(),
    })
}

/// What a change does to the names of directories. It looks two names up at most.
pub(crate) fn moves_of<T: NamedTree>(
    tree: &mut T,
    change: &Change<'_>,
) -> Result<NameMoves, T::Fault>
    requires { T.holds tree.old }
    ensures left { Leaves T.holds T.follows T.is_told T.shows tree.old tree.new }
    ensures found { IsTrue T.is_told → IfOk result (λ moves. moves ≡ moves_of (T.shows tree.old) change.now) }
    ensures cause { IfErr result (λ f. T.causes tree.old tree.new f) }
{
    match change {
        Change::Make {
            directory,
            number,
            ..
        } => Ok(NameMoves::Gain {
            directory: *directory,
            number: *number,
        }),
        Change::AddLink {
            directory,
            number,
            ..
        } => Ok(NameMoves::Gain {
            directory: *directory,
            number: *number,
        }),
        Change::Remove { directory, .. } => Ok(NameMoves::Lose {
            directory: *directory,
        }),
        Change::Rename {
            old_directory,
            old_name,
            new_directory,
            new_name,
        } => renaming(
            tree,
            *old_directory,
            old_name.as_slice(),
            *new_directory,
            new_name.as_slice(),
        ),
        _ => Ok(NameMoves::Stay),
    }
}

// A directory loses a name, if it does.
fn lose_if(directories: &mut Directories, loses: bool, directory: u16)
    ensures lost { (tree : Tree) (link : Link) (number : ℕ) → loses ≡ true → TellsDirectories tree directories.old → link.directory ≡ directory
        → map.get tree.links link ≡ Some number → TellsDirectories (take_link tree link) directories.new }
    ensures same { loses ≡ false → directories.new ≡ directories.old }
{
    if loses {
        directories.lose(directory);
    }
}

// A name of a directory goes, and one of the other comes.
fn note_move(directories: &mut Directories, from: u16, to: u16, number: u16, replaces: bool)
    ensures { (tree after : Tree) (change : TheChange) → IsTree limits_written tree → Move from to number replaces ≡ moves_of tree change → apply limits_written change tree ≡ Some after
        → TellsDirectories tree directories.old → TellsDirectories after directories.new }
{
    lose_if(directories, replaces, to);
    directories.lose(from);
    directories.gain(to, number);
}

/// Notes what a change has done to names: the table describes the directories of the tree after it.
pub(crate) fn note_moves(directories: &mut Directories, moves: NameMoves)
    ensures { (tree after : Tree) (change : TheChange) → IsTree limits_written tree → moves ≡ moves_of tree change → apply limits_written change tree ≡ Some after
        → TellsDirectories tree directories.old → TellsDirectories after directories.new }
{
    match moves {
        NameMoves::Stay => {}
        NameMoves::Gain { directory, number } => directories.gain(directory, number),
        NameMoves::Lose { directory } => directories.lose(directory),
        NameMoves::Move {
            from,
            to,
            number,
            replaces,
        } => note_move(directories, from, to, number, replaces),
    }
}
