ghost use Rattle.std.specs.Prelude.{◌≡◌, ◌↔◌, ℕ, ◌+◌, ◌-◌, ◌*◌, ◌<◌, ◌≤◌, ◌||◌, ◌==◌, List, ◌++◌, length, Some, IfSome, IsTrue};
ghost use Rattle.sn_layout.specs.Bytes.{Puts, zeros, numbers_bytes};
ghost use Rattle.sn_layout.specs.declared.tree.BlockTree.{BlockTree as TheTree};
ghost use Rattle.sn_layout_node.specs.Inode.{IsContent, content_bytes, size_of, is_tree_size};
ghost use Rattle.sn_layout_node.specs.declared.content.Content.{Content as TheContent};

use arrayvec::ArrayVec;
use sn_layout::{BlockTree, Pointers, Reader, put_bytes, put_zeros};
use sn_limits::{Kind, Limits};
use std::marker::Model;

/// The most bytes that an inode holds itself.
pub const INLINE_MAX: usize = 64;

/// At most 64 bytes of a file, which its inode holds.
#[derive(PartialEq, Eq, Drop)]
pub struct InlineBytes {
    bytes: ArrayVec<u8, INLINE_MAX>,
}

impl Model for InlineBytes {
    ghost use Rattle.std.specs.Prelude.{ℕ, ◌≤◌, List, length};

    ghost Value = { List ℕ };

    ghost view = { λ inline. inline.bytes.items };

    ghost invariant = { λ inline. length inline.bytes.items ≤ 64 };

    ghost inverse = { λ bytes. record { bytes = record { items = bytes } } };
}

fn kept(bytes: &[u8]) -> ArrayVec<u8, INLINE_MAX>
    requires { length bytes.now ≤ 64 }
    ensures { result.items ≡ bytes.now }
{
    let mut kept = ArrayVec::new();
    for byte in bytes {
        kept.push(*byte);
    }
    kept
}

impl InlineBytes {
    /// Keeps at most 64 bytes.
    pub fn new(bytes: &[u8]) -> Self
        requires { length bytes.now ≤ 64 }
        ensures { result ≡ bytes.now }
    {
        InlineBytes { bytes: kept(bytes) }
    }

    /// The bytes of the file.
    pub fn as_slice(&self) -> &[u8]
        ensures value { result.now ≡ self.now }
        ensures room { length self.now ≤ 64 }
    {
        self.bytes.as_slice()
    }

    /// A copy, which takes no memory.
    pub fn copy(&self) -> Self
        ensures { result ≡ self.now }
    {
        InlineBytes::new(self.as_slice())
    }

    fn read(count: usize, reader: &mut Reader<'_>) -> Option<Self>
        requires fits { count ≤ 64 }
        requires room { 64 ≤ length reader.old }
        ensures found { IfSome result (λ b. (length b ≡ count) × (reader.old ≡ (b ++ zeros (64 - count)) ++ reader.new)) }
        ensures only { (b rest : List ℕ) → length b ≡ count → reader.old ≡ (b ++ zeros (64 - count)) ++ rest
            → (result ≡ Some b) × (reader.new ≡ rest) }
        ensures left { IfSome result (λ b. length reader.new + 64 ≡ length reader.old) }
    {
        let bytes = InlineBytes::new(reader.bytes(count));
        if !reader.are_zeros(INLINE_MAX - count) {
            return None;
        }
        Some(bytes)
    }
}

/// What a file or a directory is made of.
#[derive(PartialEq, Eq, Drop)]
pub enum Content {
    /// The bytes of a file that has at most 64.
    Inline(InlineBytes),
    Tree(BlockTree),
}

fn is_tree_size(limits: &Limits, kind: Kind, size: u64) -> bool
    ensures { result ≡ is_tree_size limits.now kind size }
{
    match kind {
        Kind::File => size > 64 && size <= limits.largest_file,
        Kind::Directory => size.is_multiple_of(4096) && size <= limits.largest_file,
    }
}

fn read_tree(limits: &Limits, kind: Kind, size: u64, reader: &mut Reader<'_>) -> Option<BlockTree>
    requires { 64 ≤ length reader.old }
    ensures found { IfSome result (λ t. (t.size ≡ size) × IsContent limits.now kind (Content.Tree t)) }
    ensures read { IfSome result (λ t. reader.old ≡ numbers_bytes 4 t.pointers ++ reader.new) }
    ensures only { (t : TheTree) (rest : List ℕ) → t.size ≡ size → IsContent limits.now kind (Content.Tree t)
        → reader.old ≡ numbers_bytes 4 t.pointers ++ rest → (result ≡ Some t) × (reader.new ≡ rest) }
    ensures left { IfSome result (λ t. length reader.new + 64 ≡ length reader.old) }
{
    let pointers = Pointers::read(reader);
    let tree = BlockTree { size, pointers };
    if !is_tree_size(limits, kind, size) || !tree.ends_at_size() {
        return None;
    }
    Some(tree)
}

impl Content {
    /// How many bytes there are.
    pub fn size(&self) -> u64
        ensures { result ≡ size_of self.now }
    {
        match self {
            Content::Inline(bytes) => bytes.as_slice().len() as u64,
            Content::Tree(tree) => tree.size,
        }
    }

    /// A copy, which takes no memory.
    pub fn copy(&self) -> Self
        ensures { result ≡ self.now }
    {
        match self {
            Content::Inline(bytes) => Content::Inline(bytes.copy()),
            Content::Tree(tree) => Content::Tree(*tree),
        }
    }

    /// Whether it can be that of a file or a directory on a disk of this version.
    pub fn is_valid(&self, limits: &Limits, kind: Kind) -> bool
        ensures { IsTrue result ↔ IsContent limits.now kind self.now }
    {
        match self {
            Content::Inline(bytes) => kind == Kind::File && bytes.as_slice().len() <= INLINE_MAX,
            Content::Tree(tree) => {
                tree.fits();
                is_tree_size(limits, kind, tree.size) && tree.ends_at_size()
            }
        }
    }

    pub(crate) fn put(&self, block: &mut [u8], at: usize) -> usize
        requires { at + 64 ≤ length block.old }
        ensures bytes { Puts block.old block.new at result (content_bytes self.now) }
        ensures next { result ≡ at + 64 }
    {
        match self {
            Content::Inline(bytes) => {
                let bytes = bytes.as_slice();
                let at = put_bytes(block, at, bytes);
                put_zeros(block, at, INLINE_MAX - bytes.len())
            }
            Content::Tree(tree) => tree.pointers.put(block, at),
        }
    }

    pub(crate) fn read(
        limits: &Limits,
        kind: Kind,
        size: u64,
        reader: &mut Reader<'_>,
    ) -> Option<Self>
        requires { 64 ≤ length reader.old }
        ensures found { IfSome result (λ c. (size_of c ≡ size) × IsContent limits.now kind c) }
        ensures read { IfSome result (λ c. reader.old ≡ content_bytes c ++ reader.new) }
        ensures only { (c : TheContent) (rest : List ℕ) → size_of c ≡ size → IsContent limits.now kind c
            → reader.old ≡ content_bytes c ++ rest → (result ≡ Some c) × (reader.new ≡ rest) }
        ensures left { IfSome result (λ c. length reader.new + 64 ≡ length reader.old) }
    {
        if kind == Kind::File && size <= 64 {
            let bytes = InlineBytes::read(size as usize, reader)?;
            Some(Content::Inline(bytes))
        } else {
            let tree = read_tree(limits, kind, size, reader)?;
            Some(Content::Tree(tree))
        }
    }
}
