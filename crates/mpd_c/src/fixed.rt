//! What stands in every program, whatever the script is (docs/FORMATS.md, "A script in C").

/// The head from how processes are started on: what a trap does, operators and checks.
pub(crate) const HEAD: &str = r#". */
#include <inttypes.h>
#include <mpi.h>
#include <stdint.h>
#include <stdio.h>
#include <stdlib.h>

static int64_t rank, size;

/* The line of the script that runs. It is volatile, so that no compiler leaves out a loop that does nothing. */
static volatile int line;

/* Ends all processes, since this one can't go on. */
_Noreturn static inline void trap(const char *name)
{
    fprintf(stderr, "rank %" PRId64 " traps at line %d: %s\n", rank, line, name);
    MPI_Abort(MPI_COMM_WORLD, 3);
    exit(3);
}

/* Operators. A script evaluates the left operand first, and C leaves that open: so it is held while the right one is evaluated. */
static int64_t held[64];
static int held_count;

static inline void hold(int64_t left)
{
    held[held_count++] = left;
}

static inline int64_t left_operand(void)
{
    return held[--held_count];
}

static inline int64_t held_add(int64_t right)
{
    int64_t result;
    if (__builtin_add_overflow(left_operand(), right, &result)) {
        trap("overflow");
    }
    return result;
}

static inline int64_t held_subtract(int64_t right)
{
    int64_t result;
    if (__builtin_sub_overflow(left_operand(), right, &result)) {
        trap("overflow");
    }
    return result;
}

static inline int64_t held_multiply(int64_t right)
{
    int64_t result;
    if (__builtin_mul_overflow(left_operand(), right, &result)) {
        trap("overflow");
    }
    return result;
}

static inline void check_division(int64_t left, int64_t right)
{
    if (right == 0) {
        trap("zero-divisor");
    }
    if (left == INT64_MIN && right == -1) {
        trap("overflow");
    }
}

static inline int64_t held_divide(int64_t right)
{
    const int64_t left = left_operand();
    check_division(left, right);
    return left / right;
}

static inline int64_t held_remainder(int64_t right)
{
    const int64_t left = left_operand();
    check_division(left, right);
    return left % right;
}

static inline int64_t negate(int64_t value)
{
    if (value == INT64_MIN) {
        trap("overflow");
    }
    return -value;
}

static inline int64_t held_equal(int64_t right) { return left_operand() == right; }
static inline int64_t held_differ(int64_t right) { return left_operand() != right; }
static inline int64_t held_less(int64_t right) { return left_operand() < right; }
static inline int64_t held_at_most(int64_t right) { return left_operand() <= right; }
static inline int64_t held_greater(int64_t right) { return left_operand() > right; }
static inline int64_t held_at_least(int64_t right) { return left_operand() >= right; }

#define ADD(left, right) (hold(left), held_add(right))
#define SUBTRACT(left, right) (hold(left), held_subtract(right))
#define MULTIPLY(left, right) (hold(left), held_multiply(right))
#define DIVIDE(left, right) (hold(left), held_divide(right))
#define REMAINDER(left, right) (hold(left), held_remainder(right))
#define EQUAL(left, right) (hold(left), held_equal(right))
#define DIFFER(left, right) (hold(left), held_differ(right))
#define LESS(left, right) (hold(left), held_less(right))
#define AT_MOST(left, right) (hold(left), held_at_most(right))
#define GREATER(left, right) (hold(left), held_greater(right))
#define AT_LEAST(left, right) (hold(left), held_at_least(right))

/* What a script checks: the index of an array of so many elements, a rank, a tag, and what is asserted. */
static inline int64_t within(int64_t index, int64_t elements)
{
    if (index < 0 || index >= elements) {
        trap("bad-index");
    }
    return index;
}

static inline int as_rank(int64_t value)
{
    if (value < 0 || value >= size) {
        trap("bad-rank");
    }
    return (int)value;
}

static inline int as_tag(int64_t value)
{
    if (value < 0 || value > 32767) {
        trap("bad-tag");
    }
    return (int)value;
}

static inline void must_hold(int64_t condition)
{
    if (condition == 0) {
        trap("assert");
    }
}

static inline void print(int64_t value)
{
    printf("rank %" PRId64 " prints %" PRId64 "\n", rank, value);
    fflush(stdout);
}
"#;

/// The part on requests, which stands where a handle is declared.
pub(crate) const REQUESTS: &str = r#"
/* A call that doesn't block: its request, the buffer of its message, and where a receive puts the value, the source and the tag. */
struct call {
    MPI_Request request;
    int64_t value;
    int64_t *place, *source_place, *tag_place;
};

/* A new call. Its buffer stays until a wait has ended it: for ever, where its handle gets another call before. */
static inline struct call *new_call(void)
{
    struct call *const call = calloc(1, sizeof *call);
    if (call == NULL) {
        fprintf(stderr, "rank %" PRId64 " has no memory at line %d\n", rank, line);
        MPI_Abort(MPI_COMM_WORLD, 4);
        exit(4);
    }
    return call;
}

/* Puts what a complete call has received to its places, and leaves its handle without a call. */
static inline void end_call(struct call **handle, const MPI_Status *status)
{
    struct call *const call = *handle;
    if (call->place != NULL) {
        *call->place = call->value;
    }
    if (call->source_place != NULL) {
        *call->source_place = status->MPI_SOURCE;
        *call->tag_place = status->MPI_TAG;
    }
    free(call);
    *handle = NULL;
}

static inline void wait_for(struct call **handle)
{
    MPI_Status status;
    if (*handle != NULL) {
        MPI_Wait(&(*handle)->request, &status);
        end_call(handle, &status);
    }
}

/* Waits for any call of so many handles, at most 256, and tells which; -1 where none of them has a call. */
static inline int64_t wait_for_any(struct call **handles, int count)
{
    MPI_Request requests[256];
    MPI_Status status;
    int index;
    for (index = 0; index < count; index++) {
        requests[index] = handles[index] == NULL ? MPI_REQUEST_NULL : handles[index]->request;
    }
    MPI_Waitany(count, requests, &index, &status);
    if (index == MPI_UNDEFINED) {
        return -1;
    }
    end_call(&handles[index], &status);
    return index;
}
"#;

/// What stands before the names.
pub(crate) const NAMES: &str = r#"
/* The names of the script, each behind my_. Every rank has its own. */
"#;

/// How `main` begins, up to the test of the number of processes.
pub(crate) const MAIN: &str = r#"
int main(int argc, char **argv)
{
    int own_rank, all_ranks;
    MPI_Comm at_the_end;
    MPI_Init(&argc, &argv);
    MPI_Comm_dup(MPI_COMM_WORLD, &at_the_end);
    MPI_Comm_rank(MPI_COMM_WORLD, &own_rank);
    MPI_Comm_size(MPI_COMM_WORLD, &all_ranks);
    rank = own_rank;
    size = all_ranks;
"#;

/// The end of `main`.
pub(crate) const END: &str = r#"    printf("rank %" PRId64 " ends\n", rank);
    fflush(stdout);
    /* A call that no wait has ended may still be matched, until all ranks have ended. */
    MPI_Barrier(at_the_end);
    MPI_Finalize();
    return 0;
}
"#;
