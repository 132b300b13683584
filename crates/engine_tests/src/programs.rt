//! Texts with pointers. Vertices are told by number: of each function its entry, its formal-ins, its statements, of which a call is
//! followed by its actual-ins and actual-outs, and its formal-outs.

/// A list of blocks, of which one loop takes the sum and the length. The vertices are 0 the entry, 1 to 3 the formal-ins of the
/// input and of both members of the blocks, 4 to 21 the statements, 22 to 24 the formal-outs.
pub(crate) const LIST: &str = r#"#include <stdio.h>
#include <stdlib.h>
struct node {
    int val;
    struct node *next;
};
int main(void) {
    struct node *head = NULL;
    struct node *n;
    int c = getchar();
    while (c != EOF) {
        n = malloc(sizeof(struct node));
        n->val = c;
        n->next = head;
        head = n;
        c = getchar();
    }
    int sum = 0;
    int len = 0;
    for (n = head; n != NULL; n = n->next) {
        sum = sum + n->val;
        len = len + 1;
    }
    printf("%d\n", sum);
    printf("%d\n", len);
    return 0;
}
"#;

/// A function that gives the address of its own variable to itself. The vertices of `f` are 0 the entry, 1 to 3 the formal-ins
/// of its parameters and of `x`, 4 to 16 the statements with a call at 9, 17 and 18 the formal-outs; those of main are 19 and 20,
/// a call at 21, 27 and 28.
pub(crate) const UPWARD: &str = r#"#include <stdio.h>
int f(int k, int *up) {
    int r = 0;
    if (up != NULL) {
        *up = 9;
    }
    int x = k;
    if (k > 0) {
        r = f(k - 1, &x);
        r = x;
    }
    return r;
}
int main(void) {
    int t = f(1, NULL);
    printf("%d\n", t);
}
"#;

/// A block that is freed. The vertices are 0 the entry, 1 the formal-in of the block, 2 to 5 the statements, 6 the formal-out.
pub(crate) const FREED: &str = r#"#include <stdio.h>
#include <stdlib.h>
int main(void) {
    int *p = malloc(sizeof(int));
    *p = 5;
    printf("%d\n", *p);
    free(p);
}
"#;

/// A parameter through which a variable of the caller is set, and one that is overwritten. The vertices of `put` are 0 the entry, 1
/// to 3 the formal-ins of its parameters and of `x`, 4 and 5 the statements, 6 the formal-out; those of main are 7 to 9, a call at
/// 10, 15 and 16.
pub(crate) const OUTWARD: &str = r#"#include <stdio.h>
void put(int *to, int k) {
    k = 3;
    *to = k;
}
int main(void) {
    int x = 1;
    put(&x, 7);
    printf("%d\n", x);
}
"#;
