//! What the lines of a text have declared so far.

ghost use Rattle.std.specs.Prelude.{◌≡◌, ◌≤◌, ◌<◌, length, replicate, [], ◌∷◌, ◌++◌, IfOk};
ghost use Rattle.norm_lang.specs.LineWords.{item_kind};
ghost use Rattle.norm_lang.specs.Grammar.{no_op, first_kinds, draft_at, news_in, news_of, code_so_far, with_instr, with_kind, with_field, with_count, with_node, with_root, with_op, with_whole_op, with_entries, finished, among_counts, among_nodes};
ghost use Rattle.line_words.specs.Answered.{Gives};
ghost use Rattle.norm_parser.specs.DraftShown.{section_shown, draft_shown};

use line_words::fault::{Fault, Stop};
use norm_lang::list::Listed;
use norm_lang::text::{
    CasEntry, Entries, FieldDecl, Instr, Kinds, Name, NodeDecl, Op, RootDecl, Text, Version,
};
use norm_lang::uses::is_new;
use std::alloc::{AllocError, Global};
use std::mem;

/// Where in a text the next line stands.
#[derive(Clone, Copy, PartialEq, Eq)]
pub enum Section {
    /// Before the version line.
    Start,
    /// Right after the version line.
    Opening,
    /// Among the kinds.
    Kinds,
    /// Among the fields.
    Fields,
    /// Among the counts of nodes.
    Counts,
    /// Among the nodes.
    Nodes,
    /// Among the roots.
    Roots,
    /// After the line that begins an operation.
    Begun,
    /// In a generator.
    Generator,
    /// In a wrap-up.
    WrapUp,
    /// After a line that names a shipped text.
    Shipped,
}

/// The declarations and the operations that are whole, the operation whose lines stand here, and the entries of a commit
/// of which `left` lines must follow. `counted` kinds have a line that states their count of initial nodes, and `owners` has
/// the kind of each node so stated.
#[derive(Drop)]
pub struct Draft {
    pub section: Section,
    pub version: Version,
    pub counted: u8,
    pub owners: Listed<u8>,
    pub text: Text,
    pub op: Op,
    pub left: u8,
    pub entries: Entries,
}

/// An operation without a name and without code.
fn no_operation(alloc: Global) -> Op
    ensures { result ≡ no_op }
{
    Op {
        name: Listed::empty(alloc),
        args: 0,
        generator: Listed::empty(alloc),
        wrapup: Listed::empty(alloc),
    }
}

/// A text with these kinds, and nothing else.
fn text_of_kinds(alloc: Global, kinds: Kinds) -> Text
    ensures { result ≡ record { kinds = kinds; fields = []; roots = []; nodes = []; ops = [] } }
{
    Text {
        kinds,
        fields: Listed::empty(alloc),
        roots: Listed::empty(alloc),
        nodes: Listed::empty(alloc),
        ops: Listed::empty(alloc),
    }
}

/// The text of a draft. It stands alone, since what else a draft holds is dropped here.
pub(crate) fn text_of(draft: Draft) -> Text
    ensures { result ≡ (draft_shown draft).text }
{
    draft.text
}

/// The one kind of nodes that no line names.
fn item_kinds(alloc: Global) -> Result<Kinds, AllocError>
    ensures { IfOk result (λ kinds. kinds ≡ item_kind ∷ []) }
{
    let item = Listed::from_slice(alloc, b"item")?;
    Ok(Listed::from_vec(vec![in alloc; item]?))
}

/// The kinds before the first line that declares one.
fn first_kinds(alloc: Global, version: Version) -> Result<Kinds, AllocError>
    ensures { IfOk result (λ kinds. kinds ≡ first_kinds version) }
{
    match version {
        Version::First => item_kinds(alloc),
        Version::Second => Ok(Listed::empty(alloc)),
    }
}

/// Adds so many nodes of a kind.
#[tactic(auto, using(crate::proofs::Counts::owners_more, crate::proofs::Counts::owners_done))]
fn add_owners(owners: &mut Listed<u8>, kind: u8, count: u32) -> Result<(), AllocError>
    ensures { IfOk result (λ _. owners.new ≡ owners.old ++ replicate count kind) }
{
    for _ in 0..count {
        owners.push(kind)?;
    }
    Ok(())
}

/// How many `new` a method has.
#[tactic(auto, using(crate::proofs::News::news_more, crate::proofs::News::news_same))]
fn news_in(code: &[Instr]) -> usize
    ensures news { result ≡ news_in code.now }
    ensures few { result ≤ length code.now }
{
    let mut news = 0;
    for instr in code {
        if is_new(instr) {
            news += 1;
        }
    }
    news
}

impl Draft {
    /// The text declares this, and the next line stands there.
    fn of_text(alloc: Global, version: Version, section: Section, text: Text) -> Draft
        ensures { draft_shown result ≡ record (draft_at version (section_shown section)) { text = text } }
    {
        Draft {
            section,
            version,
            counted: 0,
            owners: Listed::empty(alloc),
            text,
            op: no_operation(alloc),
            left: 0,
            entries: Listed::empty(alloc),
        }
    }

    /// Nothing is declared, and the next line stands there.
    ///
    /// # Errors
    ///
    /// `AllocError` if memory runs out.
    pub fn at(alloc: Global, version: Version, section: Section) -> Result<Draft, AllocError>
        ensures { IfOk result (λ draft. draft_shown draft ≡ draft_at version (section_shown section)) }
    {
        let kinds = first_kinds(alloc, version)?;
        Ok(Draft::of_text(alloc, version, section, text_of_kinds(alloc, kinds)))
    }

    /// Adds a kind with this name; the next line stands among the kinds.
    ///
    /// # Errors
    ///
    /// `AllocError` if memory runs out.
    pub fn add_kind(&mut self, name: Name) -> Result<(), AllocError>
        ensures { IfOk result (λ _. draft_shown self.new ≡ with_kind (draft_shown self.old) name) }
    {
        self.section = Section::Kinds;
        self.text.kinds.push(name)
    }

    /// Adds a field; the next line stands among the fields.
    ///
    /// # Errors
    ///
    /// `AllocError` if memory runs out.
    pub fn add_field(&mut self, field: FieldDecl) -> Result<(), AllocError>
        ensures { IfOk result (λ _. draft_shown self.new ≡ with_field (draft_shown self.old) field) }
    {
        self.section = Section::Fields;
        self.text.fields.push(field)
    }

    /// The next line is one of a node, until as many stand as are stated.
    fn go_among_nodes(&mut self)
        ensures { draft_shown self.new ≡ among_nodes (draft_shown self.old) }
    {
        self.section = if self.text.nodes.items().len() < self.owners.items().len() {
            Section::Nodes
        } else {
            Section::Roots
        };
    }

    /// The next line is a count of nodes, until each kind has one.
    fn go_among_counts(&mut self)
        ensures { draft_shown self.new ≡ among_counts (draft_shown self.old) }
    {
        if (self.counted as usize) < self.text.kinds.items().len() {
            self.section = Section::Counts;
        } else {
            self.go_among_nodes();
        }
    }

    /// Adds the count of nodes of the next kind.
    ///
    /// # Errors
    ///
    /// `AllocError` if memory runs out.
    pub fn add_count(&mut self, count: u32) -> Result<(), AllocError>
        requires { self.old.counted < 4 }
        ensures { IfOk result (λ _. draft_shown self.new ≡ with_count (draft_shown self.old) count) }
    {
        add_owners(&mut self.owners, self.counted, count)?;
        self.counted += 1;
        self.go_among_counts();
        Ok(())
    }

    /// Adds a node. The next line is one of a node, until as many stand as are stated.
    ///
    /// # Errors
    ///
    /// `AllocError` if memory runs out.
    pub fn add_node(&mut self, node: NodeDecl) -> Result<(), AllocError>
        ensures { IfOk result (λ _. draft_shown self.new ≡ with_node (draft_shown self.old) node) }
    {
        self.text.nodes.push(node)?;
        self.go_among_nodes();
        Ok(())
    }

    /// Adds a root.
    ///
    /// # Errors
    ///
    /// `AllocError` if memory runs out.
    pub fn add_root(&mut self, root: RootDecl) -> Result<(), AllocError>
        ensures { IfOk result (λ _. draft_shown self.new ≡ with_root (draft_shown self.old) root) }
    {
        self.text.roots.push(root)
    }

    /// An operation begins, and takes the place of the one whose lines stood here.
    pub fn begin_op(&mut self, op: Op)
        ensures { draft_shown self.new ≡ with_op (draft_shown self.old) op }
    {
        self.section = Section::Begun;
        self.op = op;
    }

    /// Adds the operation whose lines stood here to those that are whole.
    ///
    /// # Errors
    ///
    /// `Fault::Form` if its wrap-up has no instruction; `Memory` if memory runs out.
    pub fn end_op(&mut self, alloc: Global) -> Result<(), Stop>
        ensures { Gives (λ _. draft_shown self.new) result (with_whole_op (draft_shown self.old)) }
    {
        if self.op.wrapup.items().is_empty() {
            return Err(Stop::Fault(Fault::Form));
        }
        let op = mem::replace(&mut self.op, no_operation(alloc));
        self.text.ops.push(op)?;
        Ok(())
    }

    /// The instructions so far of the method whose lines stand here.
    pub fn code(&self) -> &[Instr]
        ensures { result.now ≡ code_so_far (section_shown self.now.section) self.now.op }
    {
        if self.section == Section::Generator {
            self.op.generator.items()
        } else {
            self.op.wrapup.items()
        }
    }

    /// How many `new` the operation has whose lines stand here, in both methods.
    pub fn news(&self) -> usize
        ensures { result ≡ news_of self.now.op }
    {
        news_in(self.op.generator.items()) + news_in(self.op.wrapup.items())
    }

    /// Adds an instruction to the method whose lines stand here.
    ///
    /// # Errors
    ///
    /// `AllocError` if memory runs out.
    pub fn add_instr(&mut self, instr: Instr) -> Result<(), AllocError>
        ensures { IfOk result (λ _. draft_shown self.new ≡ record (draft_shown self.old) { op = with_instr (section_shown self.old.section) self.old.op instr }) }
    {
        if self.section == Section::Generator {
            self.op.generator.push(instr)
        } else {
            self.op.wrapup.push(instr)
        }
    }

    /// The commit is an instruction once none of its lines is left.
    fn settle(&mut self, alloc: Global) -> Result<(), AllocError>
        ensures { IfOk result (λ _. draft_shown self.new ≡ with_entries self.old.left (draft_shown self.old) self.old.entries) }
    {
        if self.left > 0 {
            return Ok(());
        }
        let entries = mem::replace(&mut self.entries, Listed::empty(alloc));
        self.add_instr(Instr::Commit(entries))
    }

    /// A commit begins, of which so many lines follow.
    ///
    /// # Errors
    ///
    /// `AllocError` if memory runs out.
    pub fn begin_commit(&mut self, alloc: Global, count: u8) -> Result<(), AllocError>
        ensures { IfOk result (λ _. draft_shown self.new ≡ with_entries count (draft_shown self.old) []) }
    {
        self.left = count;
        self.entries = Listed::empty(alloc);
        self.settle(alloc)
    }

    /// One more entry of a commit, of which so many lines are left after it.
    ///
    /// # Errors
    ///
    /// `AllocError` if memory runs out.
    pub fn add_entry(&mut self, alloc: Global, entry: CasEntry, left: u8) -> Result<(), AllocError>
        ensures { IfOk result (λ _. draft_shown self.new ≡ with_entries left (draft_shown self.old) (self.old.entries ++ entry ∷ [])) }
    {
        self.left = left;
        self.entries.push(entry)?;
        self.settle(alloc)
    }

    /// Makes the text whole, unless a further line must follow.
    fn end(&mut self, alloc: Global) -> Result<(), Stop>
        ensures { Gives (λ _. self.new.text) result (finished (draft_shown self.old)) }
    {
        if self.left > 0 {
            return Err(Stop::Fault(Fault::Form));
        }
        match self.section {
            Section::WrapUp => self.end_op(alloc),
            Section::Shipped => Ok(()),
            _ => Err(Stop::Fault(Fault::Form)),
        }
    }

    /// The text, unless a further line must follow.
    ///
    /// # Errors
    ///
    /// `Fault::Form` if a further line must follow; `Memory` if memory runs out.
    pub fn finish(self, alloc: Global) -> Result<Text, Stop>
        ensures { Gives (λ text. text) result (finished (draft_shown self)) }
    {
        let mut draft = self;
        match draft.end(alloc) {
            Ok(()) => Ok(text_of(draft)),
            Err(stop) => Err(stop),
        }
    }
}
