//! Programs that the tests are over.

/// A parameter that is overwritten.
pub(crate) const OVERWRITTEN: &str = r#"#include <stdio.h>
int g;
void f(int a) {
    a = 5;
    g = a;
}
int main(void) {
    int x = 7;
    f(x + 1);
    printf("%d\n", g);
}
"#;

/// Three reads, one after another.
pub(crate) const READS: &str = r#"#include <stdio.h>
int main(void) {
    int a = getchar();
    int b = getchar();
    int c = getchar();
    putchar(a);
    putchar(c);
}
"#;

/// A loop with two calls, one of which calls again.
pub(crate) const ADD: &str = r#"#include <stdio.h>
int add(int a, int b) {
    return a + b;
}
int increment(int z) {
    z = add(z, 1);
    return z;
}
int main(void) {
    int sum = 0;
    int i = 1;
    while (i < 11) {
        sum = add(sum, i);
        i = increment(i);
    }
    printf("%d\n", sum);
    printf("%d\n", i);
}
"#;

/// A list of what is read, of which all blocks come from one call of malloc.
pub(crate) const LIST: &str = r#"#include <stdio.h>
#include <stdlib.h>
struct node {
    int val;
    struct node *next;
};
int main(void) {
    struct node *head = NULL;
    struct node *n;
    int c = getchar();
    while (c != EOF) {
        n = malloc(sizeof(struct node));
        n->val = c;
        n->next = head;
        head = n;
        c = getchar();
    }
    int sum = 0;
    int len = 0;
    for (n = head; n != NULL; n = n->next) {
        sum = sum + n->val;
        len = len + 1;
    }
    printf("%d\n", sum);
    printf("%d\n", len);
    return 0;
}
"#;

/// A recursion with a pointer to a variable of the call before.
pub(crate) const UPWARD: &str = r#"#include <stdio.h>
int f(int k, int *up) {
    int r = 0;
    if (up != NULL) {
        *up = 9;
    }
    int x = k;
    if (k > 0) {
        r = f(k - 1, &x);
        r = x;
    }
    return r;
}
int main(void) {
    int t = f(1, NULL);
    printf("%d\n", t);
}
"#;

/// Arrays and structs, one of each with its address taken, and left sides of several forms.
pub(crate) const PARTS: &str = r#"struct pair {
    int left;
    int right;
};
int g;
int main(void) {
    int i = 1;
    int a[2] = {i, 2};
    int b[2] = {3, 4};
    int *p = b;
    struct pair q;
    struct pair s;
    struct pair *t = &s;
    int *h = &g;
    a[i] = 5;
    a[0] += i;
    (i) = 1;
    i -= a[1];
    i++;
    p[i] = b[0];
    q.left = *p;
    s.right = q.left;
    t->left = s.right;
    g = *h;
    (q).left++;
}
"#;

/// Main alone over integers.
pub(crate) const INTEGERS: &str = r#"#include <stdio.h>
int main(void) {
    int i = 3;
    int s = i;
    (s) = i && s ? s : EOF;
    while (i > 3) {
        s += i;
        i++;
    }
    return s;
}
"#;
