//! Programs with pointers.

/// A list of what is read, of which all blocks come from one call of malloc.
pub(crate) const LIST: &str = r#"#include <stdio.h>
#include <stdlib.h>
struct node {
    int val;
    struct node *next;
};
int main(void) {
    struct node *head = NULL;
    struct node *n;
    int c = getchar();
    while (c != EOF) {
        n = malloc(sizeof(struct node));
        n->val = c;
        n->next = head;
        head = n;
        c = getchar();
    }
    int sum = 0;
    int len = 0;
    for (n = head; n != NULL; n = n->next) {
        sum = sum + n->val;
        len = len + 1;
    }
    printf("%d\n", sum);
    printf("%d\n", len);
    return 0;
}
"#;

/// A recursion with a pointer to a variable of the call before.
pub(crate) const UPWARD: &str = r#"#include <stdio.h>
int f(int k, int *up) {
    int r = 0;
    if (up != NULL) {
        *up = 9;
    }
    int x = k;
    if (k > 0) {
        r = f(k - 1, &x);
        r = x;
    }
    return r;
}
int main(void) {
    int t = f(1, NULL);
    printf("%d\n", t);
}
"#;

/// A block that is set, printed and freed.
pub(crate) const FREED: &str = r#"#include <stdio.h>
#include <stdlib.h>
int main(void) {
    int *p = malloc(sizeof(int));
    *p = 5;
    printf("%d\n", *p);
    free(p);
}
"#;
