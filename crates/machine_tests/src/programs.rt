//! Programs that are run.

/// Two sums.
pub(crate) const TWO: &str = r#"#include <stdio.h>
int main(void) {
    int a = 1;
    int b = 2;
    a = a + 3;
    b = b + 4;
    printf("%d\n", a);
    printf("%d\n", b);
}
"#;

/// Sums by calls, after Horwitz, Reps and Binkley 1990.
pub(crate) const ADD: &str = r#"#include <stdio.h>
int add(int a, int b) {
    return a + b;
}
int increment(int z) {
    z = add(z, 1);
    return z;
}
int main(void) {
    int sum = 0;
    int i = 1;
    while (i < 11) {
        sum = add(sum, i);
        i = increment(i);
    }
    printf("%d\n", sum);
    printf("%d\n", i);
}
"#;

/// A switch over a byte of the input.
pub(crate) const SW: &str = r#"#include <stdio.h>
int main(void) {
    int c = getchar();
    int r = 0;
    int q = 0;
    switch (c) {
    case 'a':
        q = 1;
        break;
    case 'b':
        r = 2;
        break;
    default:
        r = 3;
    }
    printf("%d\n", r);
    printf("%d\n", q);
}
"#;

/// Two globals, set by two calls.
pub(crate) const PICK: &str = r#"#include <stdio.h>
int g;
int h;
void set(int a, int b) {
    g = a;
    h = b;
}
int main(void) {
    int x = 1;
    int y = 2;
    int u = 3;
    int v = 4;
    set(x, y);
    int k = g;
    set(u, v);
    printf("%d\n", k + h);
    printf("%d\n", u);
}
"#;

/// Three bytes of the input, of which two are written.
pub(crate) const READ: &str = r#"#include <stdio.h>
int main(void) {
    int a = getchar();
    int b = getchar();
    int c = getchar();
    putchar(a);
    putchar(c);
}
"#;

/// A parameter that is assigned.
pub(crate) const OVER: &str = r#"#include <stdio.h>
int g;
void f(int a) {
    a = 5;
    g = a;
}
int main(void) {
    int x = 7;
    f(x + 1);
    printf("%d\n", g);
}
"#;

/// A do, and a for.
pub(crate) const LOOPS: &str = r#"#include <stdio.h>
int main(void) {
    int s = 0;
    int j = 0;
    do {
        s = s + 1;
    } while (0);
    for (s = 0; j < 2; j++) {
        putchar('a' + j);
        s = s + j;
    }
    printf("%d\n", s);
}
"#;

/// A list of the bytes of the input.
pub(crate) const LIST: &str = r#"#include <stdio.h>
#include <stdlib.h>
struct node {
    int val;
    struct node *next;
};
int main(void) {
    struct node *head = NULL;
    struct node *n;
    int c = getchar();
    while (c != EOF) {
        n = malloc(sizeof(struct node));
        n->val = c;
        n->next = head;
        head = n;
        c = getchar();
    }
    int sum = 0;
    int len = 0;
    for (n = head; n != NULL; n = n->next) {
        sum = sum + n->val;
        len = len + 1;
    }
    printf("%d\n", sum);
    printf("%d\n", len);
    return 0;
}
"#;

/// A pointer to a variable of a caller.
pub(crate) const REC: &str = r#"#include <stdio.h>
int f(int k, int *up) {
    int r = 0;
    if (up != NULL) {
        *up = 9;
    }
    int x = k;
    if (k > 0) {
        r = f(k - 1, &x);
        r = x;
    }
    return r;
}
int main(void) {
    int t = f(1, NULL);
    printf("%d\n", t);
}
"#;

/// Two functions that call each other.
pub(crate) const MUT: &str = r#"#include <stdio.h>
int odd(int n, int a);
int even(int n, int a) {
    int r = 1;
    if (n > 0) {
        r = odd(n - 1, a);
    }
    return r;
}
int odd(int n, int a) {
    int r = a;
    if (n > 0) {
        r = even(n - 1, a);
    }
    return r;
}
int main(void) {
    int c = getchar();
    int e = even(5, 7);
    int o = odd(2, c);
    printf("%d\n", e);
    printf("%d\n", o);
}
"#;

/// A function that nothing calls.
pub(crate) const HELPER: &str = r#"int helper(int a) {
    a = a + 1;
    return a;
}
int main(void) {
    return 0;
}
"#;

/// A call whose result is overwritten.
pub(crate) const KEEP: &str = r#"int g;
int f(int a) {
    g = a;
    return a + 1;
}
int main(void) {
    int x = f(3);
    x = g;
    x = x + 1;
}
"#;

/// A block that is made, used and freed.
pub(crate) const FREE: &str = r#"#include <stdio.h>
#include <stdlib.h>
int main(void) {
    int *p = malloc(sizeof(int));
    *p = 5;
    printf("%d\n", *p);
    free(p);
}
"#;

/// A for on one line.
pub(crate) const ONE: &str = r#"int main(void){int x=0,i;for(i=0;i<3;++i)x+=i;}
"#;

/// A quotient that is undefined where the input is empty.
pub(crate) const UB: &str = r#"#include <stdio.h>
int main(void) {
    int m = -2147483647 - 1;
    int d = getchar();
    int k = 1;
    k = m / d;
    printf("%d\n", k);
}
"#;

/// A loop that never ends.
pub(crate) const FOREVER: &str = r#"int main(void) {
    int i = 0;
    while (i < 1) {
        i = 0;
    }
}
"#;

/// No statement.
pub(crate) const EMPTY: &str = r#"int main(void) {
}
"#;
