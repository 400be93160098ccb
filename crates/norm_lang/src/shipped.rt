//! The shipped texts: the hash set of lists, of which one bucket is a list, and the queue.

ghost use Rattle.std.specs.Prelude.{◌≡◌, ◌≤◌, ◌<◌, [], ◌∷◌, ◌++◌, IfOk, OnOk, codes, decimal, replicate};
ghost use Rattle.norm_lang.specs.Bounds.{most_buckets};
ghost use Rattle.norm_lang.specs.Limits.{IsWithinLimits};
ghost use Rattle.norm_lang.specs.LineWords.{item_kind};
ghost use Rattle.norm_lang.specs.Shipped.{number_field, reference_field, sentinel, reference_root, next_entry, root_entry, bucket, buckets_from, search_code, answer_code, insert_code, remove_code, change_wrap_up, insert_op, remove_op, contains_op, set_text, enqueue_generator, enqueue_wrap_up, dequeue_generator, dequeue_wrap_up, enqueue_op, dequeue_op, queue_text};

use crate::list::Listed;
use crate::text::{
    CasEntry, Code, FieldDecl, FieldKind, Fields, Instr, Kinds, NodeDecl, Nodes, Op, Ops, Place,
    Reg, RootDecl, Roots, Start, Text,
};
use std::alloc::{AllocError, Global};

/// The field of a number, in both kinds of texts.
const FIRST: u8 = 0;

/// The field of a reference.
const NEXT: u8 = 1;

/// The queue's roots.
const HEAD: u16 = 0;

const TAIL: u16 = 1;

/// The one kind of both texts.
fn kinds(alloc: Global) -> Result<Kinds, AllocError>
    ensures { IfOk result (λ kinds. kinds ≡ item_kind ∷ []) }
{
    let item = Listed::from_slice(alloc, b"item")?;
    Ok(Listed::from_vec(vec![in alloc; item]?))
}

fn fields(alloc: Global, first: &[u8]) -> Result<Fields, AllocError>
    ensures { IfOk result (λ fields. fields ≡ number_field first.now ∷ reference_field (codes "next") ∷ []) }
{
    let first = FieldDecl {
        owner: 0,
        name: Listed::from_slice(alloc, first)?,
        kind: FieldKind::Number,
    };
    let next = FieldDecl {
        owner: 0,
        name: Listed::from_slice(alloc, b"next")?,
        kind: FieldKind::Reference(0),
    };
    Ok(Listed::from_vec(vec![in alloc; first, next]?))
}

// So many nodes of 0 and null.
fn sentinels(alloc: Global, count: u32) -> Result<Nodes, AllocError>
    ensures { IfOk result (λ nodes. nodes ≡ replicate count sentinel) }
{
    let mut nodes = Listed::empty(alloc);
    for _ in 0..count {
        let values = Listed::from_slice(alloc, &[Start::Value(0), Start::Node(0)])?;
        nodes.push(NodeDecl { owner: 0, values })?;
    }
    Ok(nodes)
}

// The exchange of field 1 of the object's node.
fn next_of(object: Reg, expected: Reg, replacement: Reg, retire: Option<Reg>) -> CasEntry
    ensures { result ≡ record (next_entry object expected replacement) { retire = retire } }
{
    CasEntry {
        place: Place::Field(object, NEXT),
        expected,
        replacement,
        retire,
    }
}

fn root_of(root: u16, expected: Reg, replacement: Reg, retire: Option<Reg>) -> CasEntry
    ensures { result ≡ record (root_entry root expected replacement) { retire = retire } }
{
    CasEntry {
        place: Place::Root(root),
        expected,
        replacement,
        retire,
    }
}

// The search for a key, which goes to one place if it is absent and to another if it is present.
fn search(alloc: Global, buckets: u16, absent: u16, present: u16) -> Result<Code, AllocError>
    ensures { IfOk result (λ code. code ≡ search_code buckets absent present) }
{
    let unlink = next_of(Reg::Ref(0), Reg::Ref(1), Reg::Ref(3), Some(Reg::Ref(1)));
    Ok(Listed::from_vec(vec![in alloc;
        Instr::Null(Reg::Ref(5)),
        Instr::LoadPick(Reg::Ref(0), 0, buckets, Reg::Num(0)),
        Instr::LoadField(Reg::Ref(1), Reg::Ref(0), NEXT),
        Instr::IfEq(Reg::Ref(1), Reg::Ref(5), absent),
        Instr::LoadField(Reg::Ref(2), Reg::Ref(1), NEXT),
        Instr::IfMarked(Reg::Ref(2), 12),
        Instr::LoadField(Reg::Num(1), Reg::Ref(1), FIRST),
        Instr::IfLess(Reg::Num(0), Reg::Num(1), absent),
        Instr::IfEq(Reg::Num(0), Reg::Num(1), present),
        Instr::Mov(Reg::Ref(0), Reg::Ref(1)),
        Instr::Mov(Reg::Ref(1), Reg::Ref(2)),
        Instr::Jump(3),
        Instr::Unmark(Reg::Ref(3), Reg::Ref(2)),
        Instr::Cas(unlink, 1),
        Instr::Mov(Reg::Ref(1), Reg::Ref(3)),
        Instr::Jump(3),
    ]?))
}

// Ends a generator with a reply and nothing to exchange.
fn put_answer(alloc: Global, code: &mut Code, reply: u64) -> Result<(), AllocError>
    ensures { OnOk result (code.new ≡ code.old ++ answer_code reply) }
{
    code.push(Instr::Set(Reg::Num(2), reply))?;
    code.push(Instr::Commit(Listed::empty(alloc)))
}

// Makes the node of the key, and commits the exchange that links it.
fn put_insertion(alloc: Global, code: &mut Code) -> Result<(), AllocError>
    ensures { OnOk result (code.new ≡ code.old ++ insert_code) }
{
    let link = next_of(Reg::Ref(0), Reg::Ref(1), Reg::Ref(4), None);
    code.push(Instr::Set(Reg::Num(2), 1))?;
    code.push(Instr::New(Reg::Ref(4), 0))?;
    code.push(Instr::Put(Reg::Ref(4), FIRST, Reg::Num(0)))?;
    code.push(Instr::Put(Reg::Ref(4), NEXT, Reg::Ref(1)))?;
    code.push(Instr::Commit(Listed::from_slice(alloc, &[link])?))
}

fn insert_generator(alloc: Global, buckets: u16) -> Result<Code, AllocError>
    ensures { IfOk result (λ code. code ≡ search_code buckets 16 21 ++ (insert_code ++ answer_code 0)) }
{
    let mut code = search(alloc, buckets, 16, 21)?;
    put_insertion(alloc, &mut code)?;
    put_answer(alloc, &mut code, 0)?;
    Ok(code)
}

// Commits the exchanges that mark the node of the key and unlink it.
fn put_removal(alloc: Global, code: &mut Code) -> Result<(), AllocError>
    ensures { OnOk result (code.new ≡ code.old ++ remove_code) }
{
    let mark = next_of(Reg::Ref(1), Reg::Ref(2), Reg::Ref(6), None);
    let unlink = next_of(Reg::Ref(0), Reg::Ref(1), Reg::Ref(2), Some(Reg::Ref(1)));
    code.push(Instr::Mark(Reg::Ref(6), Reg::Ref(2)))?;
    code.push(Instr::Set(Reg::Num(2), 1))?;
    code.push(Instr::Commit(Listed::from_slice(alloc, &[mark, unlink])?))
}

fn remove_generator(alloc: Global, buckets: u16) -> Result<Code, AllocError>
    ensures { IfOk result (λ code. code ≡ search_code buckets 19 16 ++ (remove_code ++ answer_code 0)) }
{
    let mut code = search(alloc, buckets, 19, 16)?;
    put_removal(alloc, &mut code)?;
    put_answer(alloc, &mut code, 0)?;
    Ok(code)
}

fn contains_generator(alloc: Global, buckets: u16) -> Result<Code, AllocError>
    ensures { IfOk result (λ code. code ≡ search_code buckets 18 16 ++ (answer_code 1 ++ answer_code 0)) }
{
    let mut code = search(alloc, buckets, 18, 16)?;
    put_answer(alloc, &mut code, 1)?;
    put_answer(alloc, &mut code, 0)?;
    Ok(code)
}

// The wrap-up of `insert` and of `remove`.
fn change_wrapup(alloc: Global) -> Result<Code, AllocError>
    ensures { IfOk result (λ code. code ≡ change_wrap_up) }
{
    Ok(Listed::from_vec(vec![in alloc;
        Instr::Set(Reg::Num(3), 0),
        Instr::IfEq(Reg::Num(2), Reg::Num(3), 4),
        Instr::IfEq(Reg::Num(7), Reg::Num(3), 5),
        Instr::Return(Reg::Num(2)),
        Instr::Return(Reg::Num(3)),
        Instr::Again,
    ]?))
}

fn operation(
    alloc: Global,
    name: &[u8],
    args: u8,
    generator: Code,
    wrapup: Code,
) -> Result<Op, AllocError>
    ensures { IfOk result (λ op. op ≡ record { name = name.now; args = args; generator = generator; wrapup = wrapup }) }
{
    Ok(Op {
        name: Listed::from_slice(alloc, name)?,
        args,
        generator,
        wrapup,
    })
}

fn insert(alloc: Global, buckets: u16) -> Result<Op, AllocError>
    ensures { IfOk result (λ op. op ≡ insert_op buckets) }
{
    let generator = insert_generator(alloc, buckets)?;
    operation(alloc, b"insert", 1, generator, change_wrapup(alloc)?)
}

fn remove(alloc: Global, buckets: u16) -> Result<Op, AllocError>
    ensures { IfOk result (λ op. op ≡ remove_op buckets) }
{
    let generator = remove_generator(alloc, buckets)?;
    operation(alloc, b"remove", 1, generator, change_wrapup(alloc)?)
}

fn contains(alloc: Global, buckets: u16) -> Result<Op, AllocError>
    ensures { IfOk result (λ op. op ≡ contains_op buckets) }
{
    let generator = contains_generator(alloc, buckets)?;
    let wrapup = Listed::from_vec(vec![in alloc; Instr::Return(Reg::Num(2))]?);
    operation(alloc, b"contains", 1, generator, wrapup)
}

fn set_operations(alloc: Global, buckets: u16) -> Result<Ops, AllocError>
    ensures { IfOk result (λ ops. ops ≡ insert_op buckets ∷ remove_op buckets ∷ contains_op buckets ∷ []) }
{
    let insert = insert(alloc, buckets)?;
    let remove = remove(alloc, buckets)?;
    let contains = contains(alloc, buckets)?;
    Ok(Listed::from_vec(vec![in alloc; insert, remove, contains]?))
}

// The name `b` of a bucket's number.
fn bucket_name(alloc: Global, i: u32) -> Result<Listed<u8>, AllocError>
    ensures { IfOk result (λ name. name ≡ 98 ∷ decimal i) }
{
    let mut name = vec![in alloc; b'b']?;
    let digits = i.to_string(alloc)?;
    name.extend_from_slice(digits.as_bytes())?;
    Ok(Listed::from_vec(name))
}

fn bucket_root(alloc: Global, i: u32) -> Result<RootDecl, AllocError>
    requires { i < 64 }
    ensures { IfOk result (λ root. root ≡ bucket i) }
{
    Ok(RootDecl {
        name: bucket_name(alloc, i)?,
        kind: FieldKind::Reference(0),
        start: Start::Node(i + 1),
    })
}

fn bucket_roots(alloc: Global, buckets: u32) -> Result<Roots, AllocError>
    requires { buckets ≤ most_buckets }
    ensures { IfOk result (λ roots. roots ≡ buckets_from 0 buckets) }
{
    let mut roots = Listed::empty(alloc);
    for i in 0..buckets {
        roots.push(bucket_root(alloc, i)?)?;
    }
    Ok(roots)
}

/// The hash set with so many buckets, 1 to 64. With one bucket it is the list.
///
/// The operations are `insert`, `remove` and `contains`, each with a number as its argument. They reply 1 if they
/// inserted, removed or found it, and else 0. Each bucket is a list of Michael (SPAA 2002), whose removed nodes have the
/// reference to the next one marked.
///
/// # Errors
/// Memory ran out.
pub fn shipped_set(alloc: Global, buckets: u32) -> Result<Text, AllocError>
    requires some { 1 ≤ buckets }
    requires most { buckets ≤ most_buckets }
    ensures text { IfOk result (λ text. text ≡ set_text buckets) }
    ensures within { IfOk result IsWithinLimits }
{
    let text = set_of(alloc, buckets)?;
    Ok(text)
}

fn set_of(alloc: Global, buckets: u32) -> Result<Text, AllocError>
    requires { buckets ≤ most_buckets }
    ensures { IfOk result (λ text. text ≡ set_text buckets) }
{
    Ok(Text {
        kinds: kinds(alloc)?,
        fields: fields(alloc, b"key")?,
        roots: bucket_roots(alloc, buckets)?,
        nodes: sentinels(alloc, buckets)?,
        ops: set_operations(alloc, buckets as u16)?,
    })
}

fn enqueue_code(alloc: Global) -> Result<Code, AllocError>
    ensures { IfOk result (λ code. code ≡ enqueue_generator) }
{
    let swing = root_of(TAIL, Reg::Ref(0), Reg::Ref(1), None);
    let link = next_of(Reg::Ref(0), Reg::Ref(2), Reg::Ref(3), None);
    let link = Listed::from_slice(alloc, &[link])?;
    Ok(Listed::from_vec(vec![in alloc;
        Instr::LoadRoot(Reg::Ref(0), TAIL),
        Instr::LoadField(Reg::Ref(1), Reg::Ref(0), NEXT),
        Instr::Null(Reg::Ref(2)),
        Instr::IfEq(Reg::Ref(1), Reg::Ref(2), 6),
        Instr::Cas(swing, 0),
        Instr::Jump(0),
        Instr::New(Reg::Ref(3), 0),
        Instr::Put(Reg::Ref(3), FIRST, Reg::Num(0)),
        Instr::Commit(link),
    ]?))
}

fn enqueue_wrapup(alloc: Global) -> Result<Code, AllocError>
    ensures { IfOk result (λ code. code ≡ enqueue_wrap_up) }
{
    let swing = root_of(TAIL, Reg::Ref(0), Reg::Ref(1), None);
    Ok(Listed::from_vec(vec![in alloc;
        Instr::Set(Reg::Num(1), 0),
        Instr::IfEq(Reg::Num(7), Reg::Num(1), 8),
        Instr::LoadRoot(Reg::Ref(0), TAIL),
        Instr::LoadField(Reg::Ref(1), Reg::Ref(0), NEXT),
        Instr::Null(Reg::Ref(2)),
        Instr::IfEq(Reg::Ref(1), Reg::Ref(2), 7),
        Instr::Cas(swing, 7),
        Instr::Return(Reg::Num(0)),
        Instr::Again,
    ]?))
}

fn dequeue_code(alloc: Global) -> Result<Code, AllocError>
    ensures { IfOk result (λ code. code ≡ dequeue_generator) }
{
    let unlink = root_of(HEAD, Reg::Ref(0), Reg::Ref(2), Some(Reg::Ref(0)));
    let unlink = Listed::from_slice(alloc, &[unlink])?;
    let swing = root_of(TAIL, Reg::Ref(1), Reg::Ref(2), None);
    Ok(Listed::from_vec(vec![in alloc;
        Instr::Null(Reg::Ref(3)),
        Instr::LoadRoot(Reg::Ref(0), HEAD),
        Instr::LoadRoot(Reg::Ref(1), TAIL),
        Instr::LoadField(Reg::Ref(2), Reg::Ref(0), NEXT),
        Instr::IfEq(Reg::Ref(0), Reg::Ref(1), 8),
        Instr::LoadField(Reg::Num(1), Reg::Ref(2), FIRST),
        Instr::Set(Reg::Num(2), 1),
        Instr::Commit(unlink),
        Instr::IfEq(Reg::Ref(2), Reg::Ref(3), 11),
        Instr::Cas(swing, 1),
        Instr::Jump(1),
        Instr::Set(Reg::Num(1), 0),
        Instr::Set(Reg::Num(2), 0),
        Instr::Commit(Listed::empty(alloc)),
    ]?))
}

fn dequeue_wrapup(alloc: Global) -> Result<Code, AllocError>
    ensures { IfOk result (λ code. code ≡ dequeue_wrap_up) }
{
    Ok(Listed::from_vec(vec![in alloc;
        Instr::Set(Reg::Num(3), 0),
        Instr::IfEq(Reg::Num(2), Reg::Num(3), 4),
        Instr::IfEq(Reg::Num(7), Reg::Num(3), 5),
        Instr::Return(Reg::Num(1)),
        Instr::ReturnNone,
        Instr::Again,
    ]?))
}

fn queue_root(alloc: Global, name: &[u8]) -> Result<RootDecl, AllocError>
    ensures { IfOk result (λ root. root ≡ reference_root name.now 1) }
{
    Ok(RootDecl {
        name: Listed::from_slice(alloc, name)?,
        kind: FieldKind::Reference(0),
        start: Start::Node(1),
    })
}

/// The queue of Michael and Scott (PODC 1996), which begins with one node.
///
/// `enqueue` has a number as its argument and replies it. `dequeue` replies the number that was put in first of those
/// that are left, or nothing.
///
/// # Errors
/// Memory ran out.
#[tactic(auto, using(crate::proofs::ShippedLimits::queue_answered))]
pub fn shipped_queue(alloc: Global) -> Result<Text, AllocError>
    ensures text { IfOk result (λ text. text ≡ queue_text) }
    ensures within { IfOk result IsWithinLimits }
{
    let text = queue(alloc)?;
    Ok(text)
}

fn queue_roots(alloc: Global) -> Result<Roots, AllocError>
    ensures { IfOk result (λ roots. roots ≡ queue_text.roots) }
{
    let head = queue_root(alloc, b"head")?;
    let tail = queue_root(alloc, b"tail")?;
    Ok(Listed::from_vec(vec![in alloc; head, tail]?))
}

fn enqueue(alloc: Global) -> Result<Op, AllocError>
    ensures { IfOk result (λ op. op ≡ enqueue_op) }
{
    let generator = enqueue_code(alloc)?;
    operation(alloc, b"enqueue", 1, generator, enqueue_wrapup(alloc)?)
}

fn dequeue(alloc: Global) -> Result<Op, AllocError>
    ensures { IfOk result (λ op. op ≡ dequeue_op) }
{
    let generator = dequeue_code(alloc)?;
    operation(alloc, b"dequeue", 0, generator, dequeue_wrapup(alloc)?)
}

fn queue_operations(alloc: Global) -> Result<Ops, AllocError>
    ensures { IfOk result (λ ops. ops ≡ enqueue_op ∷ dequeue_op ∷ []) }
{
    let enqueue = enqueue(alloc)?;
    let dequeue = dequeue(alloc)?;
    Ok(Listed::from_vec(vec![in alloc; enqueue, dequeue]?))
}

fn queue(alloc: Global) -> Result<Text, AllocError>
    ensures { IfOk result (λ text. text ≡ queue_text) }
{
    Ok(Text {
        kinds: kinds(alloc)?,
        fields: fields(alloc, b"value")?,
        roots: queue_roots(alloc)?,
        nodes: sentinels(alloc, 1)?,
        ops: queue_operations(alloc)?,
    })
}
