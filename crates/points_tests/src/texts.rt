//! Programs with pointers.

/// A list of what is read, of which all blocks come from one call of malloc.
pub(crate) const LIST: &str = r#"#include <stdio.h>
#include <stdlib.h>
struct node {
    int val;
    struct node *next;
};
int main(void) {
    struct node *head = NULL;
    struct node *n;
    int c = getchar();
    while (c != EOF) {
        n = malloc(sizeof(struct node));
        n->val = c;
        n->next = head;
        head = n;
        c = getchar();
    }
    int sum = 0;
    int len = 0;
    for (n = head; n != NULL; n = n->next) {
        sum = sum + n->val;
        len = len + 1;
    }
    printf("%d\n", sum);
    printf("%d\n", len);
    return 0;
}
"#;

/// A local whose address goes down a recursion.
pub(crate) const RECURSION: &str = r#"#include <stdio.h>
int f(int k, int *up) {
    int r = 0;
    if (up != NULL) {
        *up = 9;
    }
    int x = k;
    if (k > 0) {
        r = f(k - 1, &x);
        r = x;
    }
    return r;
}
int main(void) {
    int t = f(1, NULL);
    printf("%d\n", t);
}
"#;

/// Memory that is freed, and whose pointer is compared and subtracted.
pub(crate) const FREED: &str = r#"#include <stdlib.h>
int main(void) {
    int *p = malloc(sizeof(int));
    long d;
    int e = 0;
    d = p - p;
    if (p == NULL) {
        e = 1;
    }
    free(p);
}
"#;

/// Five assignments, each of which takes what the one before it gives.
pub(crate) const FORWARDS: &str = "int main(void) {
    int x;
    int y;
    int *a;
    int *b;
    int *c;
    int **q;
    a = &x;
    b = a;
    q = &b;
    *q = &y;
    c = *q;
}
";

/// The same, the last one first.
pub(crate) const BACKWARDS: &str = "int main(void) {
    int x;
    int y;
    int *a;
    int *b;
    int *c;
    int **q;
    c = *q;
    *q = &y;
    q = &b;
    b = a;
    a = &x;
}
";

/// Addresses of objects and of parts of them, and sums and differences of pointers.
pub(crate) const ADDRESSES: &str = "struct pair {
    int left;
    int *right;
};
int main(void) {
    int x;
    int i = 0;
    struct pair s;
    int a[3];
    int *p;
    int *q;
    int *r;
    int *t;
    int *u;
    int *v;
    p = &x;
    q = &s.left;
    s.right = &s.left;
    r = &a[i];
    t = a;
    u = r + i;
    v = (u - 1);
}
";

/// Choices between pointers.
pub(crate) const CHOICES: &str = "#include <stdlib.h>
int main(void) {
    int x;
    int y;
    int i = 1;
    int *p = &x;
    int *q = &y;
    int *r;
    int *s;
    r = i > 0 ? p : q;
    s = i > 0 ? q : NULL;
}
";

/// A struct in an array in a struct.
pub(crate) const NESTED: &str = "struct inner {
    int *to;
};
struct outer {
    struct inner parts[2];
};
int main(void) {
    int x;
    struct outer o;
    struct inner *p;
    int *q;
    p = o.parts;
    p->to = &x;
    q = o.parts[1].to;
}
";

/// Arrays of pointers, which begin with lists.
pub(crate) const LISTS: &str = "#include <stdlib.h>
int main(void) {
    int x;
    int y;
    int *a[3] = {&x, NULL, &y};
    int *b[2] = {NULL, NULL};
    int *p = a[1];
    int **q = a;
    b[0] = *q;
}
";

/// Memory of three statements, of which one is in a loop.
pub(crate) const SITES: &str = "#include <stdlib.h>
struct node {
    struct node *next;
};
int main(void) {
    struct node *p;
    struct node *q;
    int i = 0;
    p = malloc(sizeof(struct node));
    while (i < 3) {
        q = malloc(sizeof(struct node));
        q->next = p;
        i = i + 1;
    }
    p->next = malloc(sizeof(struct node));
    p->next->next = q;
}
";

/// Two pointers that change places in a recursion.
pub(crate) const PICK: &str = "int *pick(int *a, int *b, int n) {
    int *r = a;
    if (n > 0) {
        r = pick(b, a, n - 1);
    }
    return r;
}
int main(void) {
    int x;
    int y;
    int *p = pick(&x, &y, 3);
}
";

/// Two functions that call one another.
pub(crate) const MUTUAL: &str = "#include <stdlib.h>
int *odd(int *b, int n);
int *even(int *a, int n) {
    int *r = a;
    if (n > 0) {
        r = odd(a, n - 1);
    }
    return r;
}
int *odd(int *b, int n) {
    int *s = NULL;
    if (n > 0) {
        s = even(b, n - 1);
    }
    return s;
}
int main(void) {
    int x;
    int *p = odd(&x, 5);
}
";

/// A function that is never called.
pub(crate) const UNCALLED: &str = "int g;
int *h;
void unused(int *a) {
    h = &g;
    a = h;
}
int main(void) {
    int *p = h;
}
";

/// An array as an argument.
pub(crate) const PASSED: &str = "int first(int *a, int n) {
    int s = a[0];
    return s;
}
int main(void) {
    int b[4];
    int t = first(b, 4);
}
";
