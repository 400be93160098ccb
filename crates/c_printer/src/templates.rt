//! The printed text that no law speaks of: declarations, structures, opening and closing, and the heads of functions. It is trusted. In it
//! `@` stands for a name, and `$` and `~` for numbers. No text ends with a newline: what follows begins with one.

/// From the top of the header to the declarations of claims. `$` is how many kinds there are.
pub const DECLARATIONS: &[u8] =
    b"/* @.h, written by oac: a pool of slots for lock-free nodes, with optimistic access (Cohen and Petrank, SPAA 2015).
 *
 * A pool opens with the initial nodes of a document and the first values of its roots.
 *
 * One C file of a program says
 *     #define @_IMPLEMENTATION
 *     #include \"@.h\"
 * and others include the header as it is. If @_STATIC is defined before, the functions are static, and belong to the file that
 * includes them. A macro whose name is one of the functions' locals must not be defined there. */
#ifndef @_H
#define @_H

#include <stdint.h>

#ifdef @_STATIC
#ifndef @_IMPLEMENTATION
#define @_IMPLEMENTATION
#endif
#define @_LINKAGE static inline
#else
#define @_LINKAGE
#endif

#ifdef __cplusplus
extern \"C\" {
#endif

/* A pool, and a caller of it, which one thread at a time uses. */
struct @_Pool;
struct @_Caller;

/* Opens a pool with so many slots of each of the $ kinds, in their order, with 1 to 256 callers, and with a last phase; 0 stands for the
 * greatest. Each kind needs a slot, and one for each of its initial nodes. A claim that finds no slot sweeps, and each sweep takes a phase.
 * NULL if a number is out of its range, or memory ran out. */
@_LINKAGE struct @_Pool *@_Open(uint64_t const *slots, uint64_t callers, uint64_t last_phase);

/* Gives a pool's memory back, once nobody uses it. */
@_LINKAGE void @_Close(struct @_Pool *pool);

/* The caller with a number, counted from 0; NULL if there is none. */
@_LINKAGE struct @_Caller *@_Caller_of(struct @_Pool *pool, uint64_t number);

/* What an operation answers: nothing; a number, which is in *reply; that it found no slot for a node; or that the phases are over, the last
 * of which is in *reply. */
enum { @_Nothing = 0, @_Number = 1, @_Full = -1, @_Phases = -2 };";

/// The declaration of a claim. `$` is the kind.
pub const CLAIM: &[u8] = b"

/* Claims a slot of kind $: its number, 0 if there is none, or UINT64_MAX if the last phase is over. */
@_LINKAGE uint64_t @_Claim$(struct @_Caller *caller);";

/// What stands before the name of an operation.
pub const OPERATION: &[u8] = b"
@_LINKAGE int @_";

/// The first parameter of an operation.
pub const CALLER: &[u8] = b"(struct @_Caller *caller";

/// An argument. `$` is its number.
pub const ARGUMENT: &[u8] = b", uint64_t argument_$";

/// The last parameter of an operation.
pub const REPLY: &[u8] = b", uint64_t *reply)";

/// The end of the declaration of an operation.
pub const DECLARED: &[u8] = b";";

/// To the strides of kinds. `$` is how many kinds there are, and `~` how many roots.
pub const STRUCTURES: &[u8] = b"

#ifdef __cplusplus
}
#endif
#endif

#if defined(@_IMPLEMENTATION) && !defined(@_IMPLEMENTED)
#define @_IMPLEMENTED

#include <stdatomic.h>
#include <stdlib.h>
#include <string.h>

/* A slot may be a constant, as that of null is. */
#ifdef __GNUC__
#pragma GCC diagnostic push
#pragma GCC diagnostic ignored \"-Wtype-limits\"
#endif

#if ATOMIC_LLONG_LOCK_FREE != 2
#error \"@.h needs atomic words of 64 bits without locks\"
#endif

/* The low bits of a head are the slot on top, the others the phase: there are fewer than 2^bits slots, and the last phase is below
 * 2^(64 - bits). */
#ifndef @_SLOT_BITS
#define @_SLOT_BITS 24
#endif
#if @_SLOT_BITS < 2 || @_SLOT_BITS > 32
#error \"@_SLOT_BITS must be 2 to 32\"
#endif

/* Each access. What is proved of the lines below is proved for accesses that are sequentially consistent, as these are: whoever defines
 * others takes that proof into their own hands. A swap stores the word that was found in *expected if it is another. */
#ifndef @_LOAD
#define @_LOAD(place) atomic_load(place)
#endif
#ifndef @_STORE
#define @_STORE(place, word) atomic_store(place, word)
#endif
#ifndef @_SWAP
#define @_SWAP(place, expected, word) ((void)atomic_compare_exchange_strong(place, expected, word))
#endif

/* A word on a line of its own. */
struct @_Line {
  _Alignas(64) _Atomic uint64_t word;
};

/* A caller's words that all callers read. */
struct @_Row {
  _Alignas(64) _Atomic uint64_t warning;
  _Atomic uint64_t hazard[8];
};

/* What belongs to a caller: nodes that it claimed and that no exchange has shown, and a bit for each slot and for null, as a byte. */
struct @_Caller {
  _Alignas(64) struct @_Pool *pool;
  uint64_t number;
  uint64_t cradle[16];
  unsigned char *noted;
};

enum { @_KINDS = $, @_ROOTS = ~ };

/* By slot: status and link, of which the first is null's. By kind: its head, its first slot, and its fields, node by node, null's first. */
struct @_Pool {
  struct @_Line phase;
  struct @_Line head[@_KINDS];
  uint64_t slots, callers, last_phase;
  uint64_t first[@_KINDS];
  struct @_Row *row;
  struct @_Caller *caller;
  _Atomic uint64_t *status, *link, *root, *field[@_KINDS];
};

/* Words from one root to the next: a line each, if there are few. */
enum { @_ROOT_STRIDE = @_ROOTS <= 16 ? 8 : 1 };

/* Words from one node of each kind to the next. */
static uint64_t const @_Strides[@_KINDS] = {";

/// One of the strides.
pub const STRIDE: &[u8] = b" ~,";

/// Between the strides and the first values of roots.
pub const ROOTS: &[u8] = b" };

/* A first value: of an initial node, by its number from 1 on, or else a number; 0 is null too. */
struct @_First {
  uint64_t node, number;
};

/* An initial node: its kind, and the first values of its fields from the second on. */
struct @_Node {
  uint64_t kind;
  struct @_First value[5];
};

/* The first values of the roots, and one more. */
static struct @_First const @_Roots[] = {";

/// A first value: of the initial node `$`, or else the number `~`.
pub const FIRST: &[u8] = b" { $, UINT64_C(~) },";

/// Between the first values of roots and the initial nodes.
pub const NODES: &[u8] = b" { 0, 0 } };

/* The initial nodes, and one more, which is of no kind. */
static struct @_Node const @_Nodes[] = {";

/// An initial node of the kind `$`, before the first values of its fields.
pub const NODE: &[u8] = b"
  { $, { { 0, 0 },";

/// The end of an initial node.
pub const NODE_END: &[u8] = b" } },";

/// From the initial nodes to the functions.
pub const OPENING: &[u8] = b"
  { @_KINDS, { { 0, 0 } } } };

/* Zeros, from the beginning of a line on. */
static void *@_Zeros(uint64_t count, uint64_t size) {
  if (count > (SIZE_MAX - 63) / size) return NULL;
  size_t bytes = ((size_t)(count * size) + 63) / 64 * 64;
  void *zeros = aligned_alloc(64, bytes);
  if (zeros != NULL) memset(zeros, 0, bytes);
  return zeros;
}

/* How many initial nodes of a kind there are among so many. */
static uint64_t @_Initial(uint64_t kind, uint64_t among) {
  uint64_t count = 0;
  for (uint64_t i = 0; i < among; i++) count += @_Nodes[i].kind == kind;
  return count;
}

/* Whether a pool may have these sizes: each kind has a slot, and one for each of its initial nodes, and a head has room for the last slot. */
static int @_Fits(uint64_t const *slots, uint64_t callers, uint64_t last_phase) {
  uint64_t count = 0;
  for (uint64_t k = 0; k < @_KINDS; k++) {
    if (slots[k] < 1 || slots[k] < @_Initial(k, sizeof @_Nodes / sizeof *@_Nodes) || slots[k] >> @_SLOT_BITS != 0) return 0;
    count += slots[k];
  }
  return count >> @_SLOT_BITS == 0 && callers >= 1 && callers <= 256 && last_phase >= 1 && last_phase <= UINT64_MAX >> @_SLOT_BITS;
}

/* The memory of a pool. */
static int @_Allocate(struct @_Pool *pool, uint64_t const *slots) {
  uint64_t const rows = pool->slots + 1;
  pool->row = @_Zeros(pool->callers, sizeof(struct @_Row));
  pool->caller = @_Zeros(pool->callers, sizeof(struct @_Caller));
  pool->status = @_Zeros(rows, sizeof(uint64_t));
  pool->link = @_Zeros(rows, sizeof(uint64_t));
  pool->root = @_Zeros(@_ROOTS * @_ROOT_STRIDE + 1, sizeof(uint64_t));
  if (!pool->row || !pool->caller || !pool->status || !pool->link || !pool->root) return 0;
  for (uint64_t k = 0; k < @_KINDS; k++) {
    pool->field[k] = @_Zeros((slots[k] + 1) * @_Strides[k], sizeof(uint64_t));
    if (!pool->field[k]) return 0;
  }
  for (uint64_t c = 0; c < pool->callers; c++) {
    pool->caller[c].pool = pool;
    pool->caller[c].number = c;
    pool->caller[c].noted = @_Zeros(rows, 1);
    if (!pool->caller[c].noted) return 0;
  }
  return 1;
}

/* The slot of an initial node, whose number is counted from 0: those of a kind stand in its first slots. */
static uint64_t @_Home(struct @_Pool const *pool, uint64_t node) {
  return pool->first[@_Nodes[node].kind] + @_Initial(@_Nodes[node].kind, node);
}

/* The word of a first value: a reference is twice a slot. */
static uint64_t @_Word(struct @_Pool const *pool, struct @_First first) {
  return first.node == 0 ? first.number : 2 * @_Home(pool, first.node - 1);
}

/* The words of an initial node: its slot is used. */
static void @_Place(struct @_Pool *pool, uint64_t node) {
  struct @_Node const *const initial = &@_Nodes[node];
  uint64_t const slot = @_Home(pool, node), stride = @_Strides[initial->kind];
  _Atomic uint64_t *const field = pool->field[initial->kind] + (slot - pool->first[initial->kind] + 1) * stride;
  for (uint64_t g = 0; g < stride; g++) atomic_init(&field[g], @_Word(pool, initial->value[g + 1]));
  atomic_init(&pool->status[slot], 5);
}

/* Phase 1, of which each caller has been warned. The initial nodes stand in the first slots of their kinds; each other slot is ready, and those
 * of a kind are chained, the first on top. */
static void @_Start(struct @_Pool *pool, uint64_t const *slots) {
  uint64_t const tops = UINT64_C(1) << @_SLOT_BITS;
  atomic_init(&pool->phase.word, 1);
  for (uint64_t c = 0; c < pool->callers; c++) atomic_init(&pool->row[c].warning, 1);
  for (uint64_t j = 0; j <= pool->slots; j++) atomic_init(&pool->status[j], 4);
  atomic_init(&pool->status[0], 5);
  for (uint64_t i = 0; @_Nodes[i].kind < @_KINDS; i++) @_Place(pool, i);
  for (uint64_t x = 0; x + 1 < sizeof @_Roots / sizeof *@_Roots; x++) atomic_init(&pool->root[x * @_ROOT_STRIDE], @_Word(pool, @_Roots[x]));
  for (uint64_t k = 0; k < @_KINDS; k++) {
    uint64_t const past = pool->first[k] + slots[k], ready = pool->first[k] + @_Initial(k, sizeof @_Nodes / sizeof *@_Nodes);
    for (uint64_t j = ready; j + 1 < past; j++) atomic_init(&pool->link[j], j + 1);
    atomic_init(&pool->head[k].word, tops + (ready < past ? ready : 0));
  }
}

@_LINKAGE void @_Close(struct @_Pool *pool) {
  if (pool == NULL) return;
  for (uint64_t c = 0; pool->caller != NULL && c < pool->callers; c++) free(pool->caller[c].noted);
  for (uint64_t k = 0; k < @_KINDS; k++) free(pool->field[k]);
  free(pool->root);
  free(pool->link);
  free(pool->status);
  free(pool->caller);
  free(pool->row);
  free(pool);
}

@_LINKAGE struct @_Pool *@_Open(uint64_t const *slots, uint64_t callers, uint64_t last_phase) {
  if (last_phase == 0) last_phase = UINT64_MAX >> @_SLOT_BITS;
  if (!@_Fits(slots, callers, last_phase)) return NULL;
  struct @_Pool *pool = @_Zeros(1, sizeof(struct @_Pool));
  if (pool == NULL) return NULL;
  pool->callers = callers;
  pool->last_phase = last_phase;
  for (uint64_t k = 0; k < @_KINDS; k++) {
    pool->first[k] = pool->slots + 1;
    pool->slots += slots[k];
  }
  if (!@_Allocate(pool, slots)) {
    @_Close(pool);
    return NULL;
  }
  @_Start(pool, slots);
  return pool;
}

@_LINKAGE struct @_Caller *@_Caller_of(struct @_Pool *pool, uint64_t number) {
  return number < pool->callers ? &pool->caller[number] : NULL;
}";

/// The head of a claim, before the names of the pool. `$` is the kind.
pub const CLAIM_HEAD: &[u8] = b"
/* Claims a slot of kind $. */
@_LINKAGE uint64_t @_Claim$(struct @_Caller *caller) {";

/// What stands behind the parameters of an operation.
pub const OPERATION_HEAD: &[u8] = b" {
  (void)reply;";

/// The names of the pool in a function.
pub const POOL_NAMES: &[u8] = b"
  struct @_Pool *const pool = caller->pool;
  unsigned char *const noted = caller->noted;
  uint64_t *const cradle = caller->cradle;
  struct @_Row *const row = pool->row;
  struct @_Line *const head = pool->head;
  _Atomic uint64_t *const status = pool->status, *const link = pool->link, *const root = pool->root;
  uint64_t const slots = pool->slots, callers = pool->callers, last_phase = pool->last_phase, own = caller->number;
  uint64_t const tops = UINT64_C(1) << @_SLOT_BITS, root_stride = @_ROOT_STRIDE;
  (void)noted, (void)cradle, (void)row, (void)head, (void)status, (void)link, (void)root;
  (void)slots, (void)callers, (void)last_phase, (void)own, (void)tops, (void)root_stride;";

/// The names of the first kind, whose slots stand above null alone. `$` is the kind, and `~` its stride.
pub const FIRST_KIND: &[u8] = b"
  _Atomic uint64_t *const field_$ = pool->field[$];
  uint64_t const first_$ = 1, below_$ = 0, stride_$ = ~;
  (void)field_$, (void)first_$, (void)below_$, (void)stride_$;";

/// The names of a further kind.
pub const FURTHER_KIND: &[u8] = b"
  _Atomic uint64_t *const field_$ = pool->field[$];
  uint64_t const first_$ = pool->first[$], below_$ = first_$ - 1, stride_$ = ~;
  (void)field_$, (void)first_$, (void)below_$, (void)stride_$;";

/// A local. `@` is its name.
pub const LOCAL: &[u8] = b"
  uint64_t @ = 0;
  (void)@;";

/// The local of an argument becomes the argument. `$` is its number.
pub const GIVEN: &[u8] = b"
  a$ = argument_$;";

/// The end of the header.
pub const CLOSING: &[u8] = b"
#ifdef __GNUC__
#pragma GCC diagnostic pop
#endif
#endif
";
