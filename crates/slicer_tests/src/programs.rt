//! Programs that several tests are over.

/// Two variables, each with a value of its own.
pub(crate) const TWO: &str = r#"#include <stdio.h>
int main(void) {
    int a = 1;
    int b = 2;
    a = a + 3;
    b = b + 4;
    printf("%d\n", a);
    printf("%d\n", b);
}
"#;

/// A do that goes round once, and a for.
pub(crate) const LOOPS: &str = r#"#include <stdio.h>
int main(void) {
    int s = 0;
    int j = 0;
    do {
        s = s + 1;
    } while (0);
    for (s = 0; j < 2; j++) {
        putchar('a' + j);
        s = s + j;
    }
    printf("%d\n", s);
}
"#;

/// A for, and all of it on one line.
pub(crate) const ONE: &str = "int main(void){int x=0,i;for(i=0;i<3;++i)x+=i;}";

/// A switch with a default.
pub(crate) const SWITCH: &str = r#"#include <stdio.h>
int main(void) {
    int c = 'b';
    int r = 0;
    int q = 0;
    switch (c) {
    case 'a':
        q = 1;
        break;
    case 'b':
        r = 2;
        break;
    default:
        r = 3;
    }
    printf("%d\n", r);
    printf("%d\n", q);
}
"#;

/// A switch over what is read.
pub(crate) const READING_SWITCH: &str = r#"#include <stdio.h>
int main(void) {
    int c = getchar();
    int r = 0;
    int q = 0;
    switch (c) {
    case 'a':
        q = 1;
        break;
    case 'b':
        r = 2;
        break;
    default:
        r = 3;
    }
    printf("%d\n", r);
    printf("%d\n", q);
}
"#;

/// A loop with two calls, one of which calls again.
pub(crate) const ADD: &str = r#"#include <stdio.h>
int add(int a, int b) {
    return a + b;
}
int increment(int z) {
    z = add(z, 1);
    return z;
}
int main(void) {
    int sum = 0;
    int i = 1;
    while (i < 11) {
        sum = add(sum, i);
        i = increment(i);
    }
    printf("%d\n", sum);
    printf("%d\n", i);
}
"#;

/// Two calls of a function that sets two globals.
pub(crate) const PICK: &str = r#"#include <stdio.h>
int g;
int h;
void set(int a, int b) {
    g = a;
    h = b;
}
int main(void) {
    int x = 1;
    int y = 2;
    int u = 3;
    int v = 4;
    set(x, y);
    int k = g;
    set(u, v);
    printf("%d\n", k + h);
    printf("%d\n", u);
}
"#;

/// A call of a function that sets a global to a changed parameter.
pub(crate) const SETTING: &str = r#"#include <stdio.h>
int g;
void f(int a) {
    a = 5;
    g = a;
}
int main(void) {
    int x = 7;
    f(x + 1);
    printf("%d\n", g);
}
"#;

/// A function that calls itself, and writes through a pointer.
pub(crate) const RECURSIVE: &str = r#"#include <stdio.h>
int f(int k, int *up) {
    int r = 0;
    if (up != NULL) {
        *up = 9;
    }
    int x = k;
    if (k > 0) {
        r = f(k - 1, &x);
        r = x;
    }
    return r;
}
int main(void) {
    int t = f(1, NULL);
    printf("%d\n", t);
}
"#;

/// Two functions that call one another.
pub(crate) const MUTUAL: &str = r#"#include <stdio.h>
int odd(int n, int a);
int even(int n, int a) {
    int r = 1;
    if (n > 0) {
        r = odd(n - 1, a);
    }
    return r;
}
int odd(int n, int a) {
    int r = a;
    if (n > 0) {
        r = even(n - 1, a);
    }
    return r;
}
int main(void) {
    int c = getchar();
    int e = even(5, 7);
    int o = odd(2, c);
    printf("%d\n", e);
    printf("%d\n", o);
}
"#;

/// A pointer to memory from malloc.
pub(crate) const HEAP: &str = r#"#include <stdio.h>
#include <stdlib.h>
int main(void) {
    int *p = malloc(sizeof(int));
    *p = 5;
    printf("%d\n", *p);
    free(p);
}
"#;

/// A division by what is read.
pub(crate) const DIVIDES: &str = r#"#include <stdio.h>
int main(void) {
    int m = -2147483647 - 1;
    int d = getchar();
    int k = 1;
    k = m / d;
    printf("%d\n", k);
}
"#;
