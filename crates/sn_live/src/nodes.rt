//! What a change does to nodes and to files without names.
ghost use Rattle.std.specs.Prelude.{◌≡◌, ℕ, ◌==◌, ◌&&◌, ◌||◌, IsTrue, IfErr, IfOk};
ghost use Rattle.std.specs.FinMap as map;
ghost use Rattle.sn_live.specs.Nodes.{NotesNodes, linking, listed_after, losing, losing_of, lost_of, making, nameless_after, node_moves_of, renaming};
ghost use Rattle.sn_model.specs.Changes.{take_node};
ghost use Rattle.sn_model.specs.Settling.{is_nameless};
ghost use Rattle.sn_model.specs.Tree.{Tree, link_to};
ghost use Rattle.sn_number_table.specs.Nameless.{is_listed};
ghost use Rattle.sn_number_table.specs.Table.{TellsNumbers, kept_of, since_of};
ghost use Rattle.sn_walk.specs.Frame.{Leaves};

use sn_applies::NamedTree;
use sn_limits::Kind;
use sn_model::Change;
use sn_number_table::{NamelessFiles, NumberTable};

/// What a change does to nodes and to files without names.
#[derive(Clone, Copy)]
pub(crate) enum NodeMoves {
    /// No node is made or removed, and no file gets its first name or loses its last one.
    Stay,
    /// A number gets a node. Where a file without names had it, that one is dropped.
    Come { number: u16, replaces: bool },
    /// A directory is removed, and its number can be given out.
    Go { number: u16 },
    /// The file of this number had no names, and gets one.
    Name { number: u16 },
    /// The file of this number loses its last name, and stays.
    Unname { number: u16 },
}

// Whether a number is that of a file without names.
fn is_nameless<T: NamedTree>(tree: &mut T, number: u16) -> Result<bool, T::Fault>
    requires { T.holds tree.old }
    ensures left { Leaves T.holds T.follows T.is_told T.shows tree.old tree.new }
    ensures found { IsTrue T.is_told → IfOk result (λ b. b ≡ is_nameless (T.shows tree.old) number (map.get (T.shows tree.old).nodes number)) }
    ensures cause { IfErr result (λ f. T.causes tree.old tree.new f) }
{
    match tree.node(number) {
        Ok(Some(node)) => Ok(node.kind == Kind::File && node.links == 0),
        Ok(None) => Ok(false),
        Err(fault) => Err(fault),
    }
}

// What becomes of a node of a kind, with so many links, when it loses a name.
fn losing_of(number: u16, kind: Kind, links: u16) -> NodeMoves
    ensures { result ≡ losing_of number kind links }
{
    match kind {
        Kind::Directory => NodeMoves::Go { number },
        Kind::File => {
            if links == 1 {
                return NodeMoves::Unname { number };
            }
            NodeMoves::Stay
        }
    }
}

// What becomes of what loses a name, if anything does.
fn losing<T: NamedTree>(tree: &mut T, number: Option<u16>) -> Result<NodeMoves, T::Fault>
    requires { T.holds tree.old }
    ensures left { Leaves T.holds T.follows T.is_told T.shows tree.old tree.new }
    ensures found { IsTrue T.is_told → IfOk result (λ moves. moves ≡ losing (T.shows tree.old) number) }
    ensures cause { IfErr result (λ f. T.causes tree.old tree.new f) }
{
    let Some(number) = number else {
        return Ok(NodeMoves::Stay);
    };
    match tree.node(number) {
        Ok(Some(node)) => Ok(losing_of(number, node.kind, node.links)),
        Ok(None) => Ok(NodeMoves::Stay),
        Err(fault) => Err(fault),
    }
}

// What a remove does.
fn removing<T: NamedTree>(tree: &mut T, directory: u16, name: &[u8]) -> Result<NodeMoves, T::Fault>
    requires { T.holds tree.old }
    ensures left { Leaves T.holds T.follows T.is_told T.shows tree.old tree.new }
    ensures found { IsTrue T.is_told → IfOk result (λ moves. moves ≡ losing (T.shows tree.old) (map.get (T.shows tree.old).links (link_to directory name.now))) }
    ensures cause { IfErr result (λ f. T.causes tree.old tree.new f) }
{
    let number = tree.number(directory, name)?;
    losing(tree, number)
}

// What a rename does: where both names are of one object, nothing.
fn renaming<T: NamedTree>(
    tree: &mut T,
    from: u16,
    old_name: &[u8],
    to: u16,
    new_name: &[u8],
) -> Result<NodeMoves, T::Fault>
    requires { T.holds tree.old }
    ensures left { Leaves T.holds T.follows T.is_told T.shows tree.old tree.new }
    ensures found { IsTrue T.is_told → IfOk result (λ moves. moves ≡ renaming (T.shows tree.old) (link_to from old_name.now) (link_to to new_name.now)) }
    ensures cause { IfErr result (λ f. T.causes tree.old tree.new f) }
{
    let Some(number) = tree.number(from, old_name)? else {
        return Ok(NodeMoves::Stay);
    };
    let target = tree.number(to, new_name)?;
    if target == Some(number) {
        return Ok(NodeMoves::Stay);
    }
    losing(tree, target)
}

// What a link does to the file that gets a name.
fn linking<T: NamedTree>(tree: &mut T, number: u16) -> Result<NodeMoves, T::Fault>
    requires { T.holds tree.old }
    ensures left { Leaves T.holds T.follows T.is_told T.shows tree.old tree.new }
    ensures found { IsTrue T.is_told → IfOk result (λ moves. moves ≡ linking (T.shows tree.old) number) }
    ensures cause { IfErr result (λ f. T.causes tree.old tree.new f) }
{
    if is_nameless(tree, number)? {
        return Ok(NodeMoves::Name { number });
    }
    Ok(NodeMoves::Stay)
}

// What a make does.
fn making<T: NamedTree>(tree: &mut T, number: u16) -> Result<NodeMoves, T::Fault>
    requires { T.holds tree.old }
    ensures left { Leaves T.holds T.follows T.is_told T.shows tree.old tree.new }
    ensures found { IsTrue T.is_told → IfOk result (λ moves. moves ≡ making (T.shows tree.old) number) }
    ensures cause { IfErr result (λ f. T.causes tree.old tree.new f) }
{
    let replaces = is_nameless(tree, number)?;
    Ok(NodeMoves::Come { number, replaces })
}

/// What a change does to nodes and to files without names. It looks two names and a node up at most.
pub(crate) fn node_moves_of<T: NamedTree>(
    tree: &mut T,
    change: &Change<'_>,
) -> Result<NodeMoves, T::Fault>
    requires { T.holds tree.old }
    ensures left { Leaves T.holds T.follows T.is_told T.shows tree.old tree.new }
    ensures found { IsTrue T.is_told → IfOk result (λ moves. moves ≡ node_moves_of (T.shows tree.old) change.now) }
    ensures cause { IfErr result (λ f. T.causes tree.old tree.new f) }
{
    match change {
        Change::Make { number, .. } => making(tree, *number),
        Change::AddLink { number, .. } => linking(tree, *number),
        Change::Remove { directory, name } => removing(tree, *directory, name.as_slice()),
        Change::Rename {
            old_directory,
            old_name,
            new_directory,
            new_name,
        } => renaming(
            tree,
            *old_directory,
            old_name.as_slice(),
            *new_directory,
            new_name.as_slice(),
        ),
        _ => Ok(NodeMoves::Stay),
    }
}

/// Notes in the table of numbers what a change has done to nodes.
pub(crate) fn note_nodes(numbers: &mut NumberTable, moves: NodeMoves)
    ensures { NotesNodes moves numbers.old numbers.new }
{
    match moves {
        NodeMoves::Come { number, .. } => numbers.make(number),
        NodeMoves::Go { number } => numbers.lose(number),
        NodeMoves::Stay | NodeMoves::Name { .. } | NodeMoves::Unname { .. } => {}
    }
}

/// Notes in the table of numbers that a file is dropped: with its last descriptor, or with its last name.
pub(crate) fn note_drop(numbers: &mut NumberTable, number: u16, by_close: bool)
    ensures tells { (tree : Tree) → TellsNumbers tree numbers.old → TellsNumbers (take_node tree number) numbers.new }
    ensures kept { (n : ℕ) → kept_of numbers.new n ≡ (by_close && n == number || kept_of numbers.old n) }
    ensures since { (n : ℕ) → since_of numbers.new n ≡ (by_close && n == number || since_of numbers.old n) }
{
    if by_close {
        numbers.lose_closed(number);
    } else {
        numbers.lose(number);
    }
}

/// How many files have no names once a change was made.
pub(crate) fn nameless_after(nameless: u32, moves: NodeMoves) -> u32
    ensures { result ≡ nameless_after nameless moves }
{
    match moves {
        NodeMoves::Come { replaces, .. } => {
            if replaces {
                return nameless.saturating_sub(1);
            }
            nameless
        }
        NodeMoves::Name { .. } => nameless.saturating_sub(1),
        NodeMoves::Unname { .. } => nameless.saturating_add(1),
        NodeMoves::Stay | NodeMoves::Go { .. } => nameless,
    }
}

/// Notes in the list of the files without names what a change has done to them.
pub(crate) fn note_names(files: &mut NamelessFiles, moves: NodeMoves)
    ensures { (n : ℕ) → is_listed files.new n ≡ listed_after moves (is_listed files.old) n }
{
    match moves {
        NodeMoves::Come { number, .. } | NodeMoves::Name { number } => files.remove(number),
        NodeMoves::Unname { number } => files.insert(number),
        NodeMoves::Stay | NodeMoves::Go { .. } => {}
    }
}

/// The file that loses its last name, if one does.
pub(crate) fn lost_of(moves: NodeMoves) -> Option<u16>
    ensures { result ≡ lost_of moves }
{
    match moves {
        NodeMoves::Unname { number } => Some(number),
        NodeMoves::Stay | NodeMoves::Come { .. } | NodeMoves::Go { .. } | NodeMoves::Name { .. } =>
            None,
    }
}
