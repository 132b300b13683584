//! The system graphs of texts with pointers, as they are printed.
use crate::programs::{LIST, UPWARD};
use crate::typed_rows::{Pointing, printed_by};
use std::process::Abort;

/// The graph of the text is printed so, where its locations may point as the pairs say.
fn is_printed<R: Abort + AllocGlobal>(
    rt: &R,
    text: &str,
    count: u32,
    pairs: &[Pointing],
    wanted: &str,
) {
    let found = printed_by(rt, text, count, pairs);
    let found = String::from_utf8_lossy(rt.alloc(), found.bytes()).expect(rt, "memory");
    assert_eq!(rt; found.as_str(), wanted);
}

// The formal-ins and formal-outs are the input and the members of the blocks of line 12. What is stored in a member, by vertices 8
// and 9, leaves what it held before.
const LIST_PRINTED: &str = "0 main entry
1 main formal-in input
2 main formal-in malloc@12.val
3 main formal-in malloc@12.next
4 main statement 8
5 main statement 10
6 main statement 11
7 main statement 12
8 main statement 13
9 main statement 14
10 main statement 15
11 main statement 16
12 main statement 18
13 main statement 19
14 main statement 20
15 main statement 20
16 main statement 20
17 main statement 21
18 main statement 22
19 main statement 24
20 main statement 25
21 main statement 26
22 main formal-out input
23 main formal-out malloc@12.val
24 main formal-out malloc@12.next
0 -> 1 control
0 -> 2 control
0 -> 3 control
0 -> 4 control
0 -> 5 control
0 -> 6 control
0 -> 12 control
0 -> 13 control
0 -> 14 control
0 -> 15 control
0 -> 19 control
0 -> 20 control
0 -> 21 control
0 -> 22 control
0 -> 23 control
0 -> 24 control
1 -> 5 flow
2 -> 17 flow
2 -> 23 flow
3 -> 16 flow
3 -> 24 flow
4 -> 9 flow
4 -> 15 flow
5 -> 6 flow
5 -> 8 flow
5 -> 11 flow
5 -> 22 flow
6 -> 6 control
6 -> 7 control
6 -> 8 control
6 -> 9 control
6 -> 10 control
6 -> 11 control
7 -> 8 flow
7 -> 9 flow
7 -> 10 flow
8 -> 17 flow
8 -> 23 flow
9 -> 16 flow
9 -> 24 flow
10 -> 9 flow
10 -> 15 flow
11 -> 6 flow
11 -> 8 flow
11 -> 11 flow
11 -> 22 flow
12 -> 17 flow
12 -> 19 flow
13 -> 18 flow
13 -> 20 flow
14 -> 14 control
14 -> 16 control
14 -> 17 control
14 -> 18 control
15 -> 14 flow
15 -> 16 flow
15 -> 17 flow
16 -> 14 flow
16 -> 16 flow
16 -> 17 flow
17 -> 17 flow
17 -> 19 flow
18 -> 18 flow
18 -> 20 flow
";

// head 1, n 2, c, sum and len, the blocks of line 12 with their members val and next as 6 to 8, and main's result.
#[test]
fn list_of_blocks(rt: HostRuntime) {
    let (head, n, block, next) = (1 << 1, 1 << 2, 1 << 6, 1 << 8);
    let pairs = [(head, block), (n, block), (next, block)];
    is_printed(&rt, LIST, 10, &pairs, LIST_PRINTED);
}

// `x`, whose address is taken, goes in and out of each call. Line 7, vertex 7, leaves what it held before, so that vertices 3
// and 6 go past it.
const UPWARD_PRINTED: &str = "0 f entry
1 f formal-in #1
2 f formal-in #2
3 f formal-in x@7
4 f statement 3
5 f statement 4
6 f statement 5
7 f statement 7
8 f statement 8
9 f call 9 f
10 f actual-in 9 #1
11 f actual-in 9 #2
12 f actual-in 9 x@7
13 f actual-out 9 x@7
14 f actual-out 9 result
15 f statement 10
16 f statement 12
17 f formal-out x@7
18 f formal-out result
19 main entry
20 main formal-in x@7
21 main call 15 f
22 main actual-in 15 #1
23 main actual-in 15 #2
24 main actual-in 15 x@7
25 main actual-out 15 x@7
26 main actual-out 15 result
27 main statement 16
28 main formal-out x@7
0 -> 1 control
0 -> 2 control
0 -> 3 control
0 -> 4 control
0 -> 5 control
0 -> 7 control
0 -> 8 control
0 -> 16 control
0 -> 17 control
0 -> 18 control
1 -> 7 flow
1 -> 8 flow
1 -> 10 flow
2 -> 5 flow
2 -> 6 flow
3 -> 12 flow
3 -> 17 flow
4 -> 16 flow
5 -> 6 control
6 -> 12 flow
6 -> 17 flow
7 -> 12 flow
7 -> 17 flow
8 -> 9 control
8 -> 15 control
9 -> 0 call 9
9 -> 10 control
9 -> 11 control
9 -> 12 control
9 -> 13 control
9 -> 14 control
10 -> 1 in 9
11 -> 2 in 9
12 -> 3 in 9
13 -> 15 flow
13 -> 17 flow
15 -> 16 flow
16 -> 18 flow
17 -> 13 out 9
17 -> 25 out 21
18 -> 14 out 9
18 -> 26 out 21
19 -> 20 control
19 -> 21 control
19 -> 27 control
19 -> 28 control
20 -> 24 flow
21 -> 0 call 21
21 -> 22 control
21 -> 23 control
21 -> 24 control
21 -> 25 control
21 -> 26 control
22 -> 1 in 21
23 -> 2 in 21
24 -> 3 in 21
25 -> 28 flow
26 -> 27 flow
";

// k 1, up 2, r 3, x 4, t 5, and the results of f and main.
#[test]
fn object_of_a_call_before(rt: HostRuntime) {
    let (up, x) = (1 << 2, 1 << 4);
    is_printed(&rt, UPWARD, 8, &[(up, x)], UPWARD_PRINTED);
}
