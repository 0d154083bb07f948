//! Tests of typing.

// C text that is typed, or breaks a rule of typing on a line.

use c_elab_decl::elaborate;
use c_lexer::lex;
use c_parse_decl::parse;
use c_scope::TypingError;
use std::alloc::{AllocError, Global};
use std::test::*;

// Rows "TEXT@LINE RULE" of files, where a `$` begins a new line: the line and the rule that is broken, if one is. Declarations of variables (C11 6.7, 6.7.2).
const VARIABLES: &str = "\
int main(void){unsigned char (c)=200;c=c+100;assert(c==44);return 0;}@
int main(void){unsigned n=nondet_uint();assert((1u<<n)>>n==1u);return 0;}@
int main(void){unsigned char x=nondet_uchar();assert(!(x*x==49&&100/x==14));return 0;}@
int main(void){long unsigned int long a;short b;signed c;char d;_Bool e;}@
int main(void){size_t a;int8_t b;uint16_t c;ptrdiff_t d;pthread_t e;}@
int main(void){volatile register int a;auto long b;}@
int main(void){short a=1,b=a;}@
int main(void){_Bool b=2;char c=b;}@
int main(void){int x={1},y={{x}},z={z,};}@
int main(void){int;const int;}@
int main(void){int x={1,2};}@1 12
int main(void){int$x={{1,2}};}@2 12
int main(void){int x={y,2};}@1 1
int main(void){int$x={assert(1)};}@2 8
int main(void){int x={assert(1),2};}@1 12
int main(void){const int x=1;x=2;}@1 9
int main(void){int char x;}@1 5
int main(void){$short long x;}@2 5
int main(void){unsigned _Bool x;}@1 5
int main(void){long long long x;}@1 5
int main(void){static extern int x;}@1 5
int main(void){const x;}@1 5
int main(void){void x;}@1 3
int main(void){int (x);int$(x);}@2 2
struct S{char a;int b;};int main(void){struct S s;s.a=1;s.b=2;return s.b;}@
union U{int i;char c;};int main(void){union U u;u.i=1;return u.c;}@
int main(void){struct{int a;union{long l;struct{char x,y;};};}s;s.y=1;return s.l;}@
struct S{short h;struct{int x;char y;}p[1],q;};int main(void){struct S s;s.q.y=1;return ((s).q).x;}@
struct S{char a;};int main(void){struct S s,t[5];long x;t;}@1 7
struct S{char a;};int main(void){struct S s,t[5];long x;}@
typedef int T[2][3];int main(void){T a;T b[2];const T c;return sizeof b;}@
int main(void){int a[3];char b[2][5];return sizeof a;}@
struct S{char a[3];short b;};int main(void){struct S s;int x=sizeof s,y=sizeof(s.a),z=sizeof s.b;}@
int main(void){struct S{int a;}s;{struct S{char c;}t;t.c=s.a;}struct S u;}@
struct S{int x;};int main(void){int x=1;struct S s;{struct S x;x.x=s.x;}return x;}@
struct S{const int a;int b;};int main(void){struct S s;s.b=1;$s.a=2;}@2 9
struct S{int a;};int main(void){const struct S s;$s.a=2;}@2 9
typedef const struct{int a;}T;int main(void){T s;$s.a=2;}@2 9
struct S{struct{const int x;}t;};int main(void){struct S s;s.t.x=1;}@1 9
struct S{const struct{int x;};int y;};int main(void){struct S s;s.y=1;$s.x=1;}@2 9
typedef const int T;struct S{T a;};int main(void){struct S s;s.a++;}@1 9
struct S{int a;};int main(void){struct S s;$s.b=1;}@2 11
int main(void){int x;$x.a=1;}@2 11
struct S{int a;};int main(void){struct S s;$if(s)return 0;}@2 17
struct S{int a;};int main(void){struct S s;$return s;}@2 8
struct S{int a;};int main(void){struct S s;int$x=s;}@2 8
struct S{int a[3];};int main(void){struct S s;$return s.a;}@2 7
struct S{int a;};int main(void){struct S s;$return sizeof(s.b);}@2 11
struct S{int a;};struct T{struct S a[1000];};int main(void){struct T$a[1000000];}@2 4";

// The same. Typedefs (C11 6.7.8).
const TYPEDEFS: &str = "\
typedef unsigned char T;int main(void){T x=1;}@
int main(void){typedef int T;{typedef T U;U x=1;}T y;}@
typedef int T;typedef int T;int main(void){T x;}@
typedef int T;$typedef const int$T;int main(void){}@3 2
typedef const int T;int main(void){T x;x=1;}@1 9
typedef int T;int main(void){const T x=1;{T x;x=2;}}@
typedef int T[3];typedef int T[3];int main(void){return sizeof(T);}@
typedef int T[3];typedef int T[4];int main(void){}@1 2
typedef int T=1;int main(void){}@1 12
typedef int T=y;int main(void){}@1 1
int main(void){typedef int T=sizeof(T);}@1 12
typedef unsigned long size_t;int main(void){}@
typedef unsigned size_t;int main(void){size_t x;}@
int main(void){typedef char size_t;size_t x;}@
typedef struct{unsigned m;} pthread_mutex_t;int main(void){pthread_mutex_t x;x.m=1;}@
int size_t;int main(void){size_t=1;}@
enum{int8_t=3};int main(void){return int8_t;}@
int uint8_t(void);int main(void){return 0;}@
typedef int size_t;$typedef long size_t;int main(void){}@2 2
typedef pthread_mutex_t pthread_mutex_t;int main(void){return sizeof(pthread_mutex_t);}@
int main(void){pthread_mutex_t x={3};x.__cell=4;return x.__cell;}@
int main(void){pthread_mutex_t x;return x.m;}@1 11
typedef int assert;int main(void){}@1 2
int main(void){typedef int assert;assert x;}@
typedef int main;$int main(void){}@2 2
typedef int T;int main(void){int T;T=1;}@
int main(void){typedef int T;int$T;}@2 2
int main(void){int T;typedef int T;}@1 2
typedef struct S T;struct S{int a;};int main(void){return sizeof(T);}@
typedef void V;int main(void){V x;}@1 3
typedef int A[0];int main(void){}@1 4
typedef int A[];int main(void){}@1 4
typedef struct S A[2];int main(void){}@1 3
typedef typedef int T;int main(void){}@1 5";

// The same. Enumerations (C11 6.7.2.2).
const ENUMERATORS: &str = "\
int main(void){enum{A,B=5,C};int x=A,y=B,z=C;}@
enum{A=-1,B};int main(void){int x=A,y=B;}@
enum{A=2147483647,B=1};int main(void){int x=A;}@
enum{A=-2147483648};int main(void){int x=A;}@
enum{A=(signed char)-1,B=sizeof(int),C='a',D=(unsigned char)300};int main(void){int w=A,x=B,y=C,z=D;}@
enum{A=1?2:1/0,B=0&&1/0};int main(void){int x=A,y=B;}@
enum{A=1?2:(3,4),B=1||(2,3)};int main(void){int x=A,y=B;}@
enum{A=$(3,4)};int main(void){}@1 13
enum{A,$B=$A/0};int main(void){}@2 13
enum{A,$A=$1/0};int main(void){}@2 2
enum{A=2147483647,$B};int main(void){}@2 13
enum{A=$2147483648};int main(void){}@1 13
enum{A=-2147483649};int main(void){}@1 13
enum{A=4294967295u};int main(void){}@1 13
enum{$A=$1/0};int main(void){}@2 13
int main(void){int x;enum{A=x};}@1 13
enum{A,$A};int main(void){}@2 2
enum{A=B,B};int main(void){}@1 1
enum{A};int main(void){A=1;}@1 9
enum E{A};int main(void){enum E x=A;x=5;}@
enum E;int main(void){}@1 3
int main(void){enum E x;}@1 3
int main(void){return sizeof(enum E);}@1 1
enum E{A};$enum E{B};int main(void){}@2 18
int main(void){enum E{A};{enum E{B=7};int x=A,y=B;}}@
struct E;enum E{A};int main(void){}@1 18
enum E{A};int main(void){struct E x;}@1 18
enum E{A};int main(void){struct E;struct E{int a;};return sizeof(struct E);}@
enum{assert};int main(void){}@1 2
int main(void){enum{assert};return assert;}@
int main(void){enum E{A=sizeof(enum E)};}@1 1";

// The same. Structs and unions (C11 6.7.2.1).
const RECORDS: &str = "\
struct S{char a;long b;short c;};int main(void){assert(sizeof(struct S)==24);return 0;}@
struct S{char a;long b;short c;};int main(void){return sizeof(struct S);}@
struct S{int a[2][3];union{char c[9];int i;};};int main(void){return sizeof(struct S);}@
union U{struct{char a,b,c;}s;short t;};int main(void){return sizeof(union U);}@
struct S{enum{A=3}e;int a[A];};int main(void){int x=A;return sizeof(struct S);}@
typedef struct{char a;}T;struct S{T a[5],b;int c;};int main(void){return sizeof(struct S);}@
struct S{struct{int a;}s;int a;};int main(void){return sizeof(struct S);}@
struct S{int;int a;};int main(void){return sizeof(struct S);}@
struct S;struct S{int a;};int main(void){return sizeof(struct S);}@
struct S{int a;};int main(void){struct S{char c;};return sizeof(struct S);}@
int main(void){struct S{int a;};{const struct S;return sizeof(struct S);}}@
int main(void){struct S{int a;};{struct S;return$sizeof(struct S);}}@2 3
int main(void){struct S;{struct S{int a;};}return sizeof(struct S);}@1 3
int main(void){struct S s;return 0;}@1 3
int main(void){return sizeof(struct S);}@1 1
struct{int a;int$a;};int main(void){}@2 2
struct{int a;struct{int b;int$a;};};int main(void){}@2 2
struct{struct{int a;};union{int a;};};int main(void){}@1 2
struct$S{int;};int main(void){}@1 3
struct S{struct S x;};int main(void){}@1 3
struct S{void v;};int main(void){}@1 3
struct S{int a[];};int main(void){}@1 4
struct S{int a[0];};int main(void){}@1 4
struct S{char a[2147483647];$char b;};int main(void){}@1 4
struct S{int a;};$struct S{int a;};int main(void){}@2 18
union S;struct S{int a;};int main(void){}@1 18
struct S{struct S{int a;}x;};int main(void){}@1 18
struct S{int a;};struct S{int;};int main(void){}@1 3
struct S{int a;};int main(void){union S x;}@1 18
struct S{int a;};int main(void){union S;return sizeof(union S);}@1 3
int struct S{int a;};int main(void){}@1 5
struct S{int a;}struct T{int b;};int main(void){}@1 5
struct S{int a;};int main(void){$struct S s;}@";

// The same. Initializers and arrays (C11 6.7.6.2, 6.7.9).
const INITIALIZERS: &str = "\
struct S{int a;char b;};int main(void){struct S s={1,2},t={3,},u=s;}@
struct S{int a;char b;};struct T{struct S s;int c;};int main(void){struct T t={{1,2},3};struct S u=t.s;}@
int main(void){int a[3]={1,2},b[]={1,2,3,},c[][2]={{1,2},{3}};return sizeof b+sizeof c;}@
union U{char c;int i;};int main(void){union U u={1};return u.i;}@
int main(void){struct{int a;struct{int b;};union{long l;};}s={1,{2},{3}};return s.b;}@
int main(void){int x=0;int a[2]={x=1,x};int b[2]={{x},{{x}}};}@
struct S{int a,b;};int main(void){struct S s=s,t={t.b,1};int a[2]={sizeof a};}@
int main(void){char s[]=\"ab\",t[2]=\"ab\",u[7]=\"a\" \"\\n\\x41\\101\\\\\";}@
int main(void){unsigned char s[]={'a','b'};char t[2][3]={\"ab\",\"c\"};}@
struct S{int a;};int main(void){struct S s;s;(void)s;return 0;}@
int main(void){char$s[1]=\"ab\";}@2 12
int main(void){int s[3]=\"ab\";}@1 12
int main(void){char c=\"a\";}@1 8
int main(void){char s[2]=${\"a\"};}@2 8
int main(void){int a[2]=${1,2,3};}@2 12
int main(void){int a[2][2]={{1,2},${1,2,3}};}@2 12
int main(void){int a[2][2]=${1,2};}@2 12
int main(void){int a[1]=${${1,2}};}@3 12
int main(void){int a[2]={${1,2},y};}@2 12
int main(void){int x=${1,2};}@2 12
int main(void){int x={{{1}}};}@
int main(void){int a[1]=${assert(1),2};}@2 8
int main(void){int a[1]={1,$y};}@2 1
union U{int i,j;};int main(void){union U u=${1,2};}@2 12
struct S{int a;};struct T{int a;};int main(void){struct S s={1};struct T$t=s;}@2 12
int main(void){int$a[]=5;}@2 12
int main(void){int a[]={$sizeof a};}@2 3
int main(void){int a[0];}@1 4
int main(void){int a[-1];}@1 4
int main(void){char a[2147483648];}@1 4
int main(void){char a[2147483647];}@
int main(void){int a[2147483647];}@1 4
int main(void){int a[];}@1 4
int main(void){int a[]={1};}@
int main(void){int a[2][0];}@1 4
int main(void){int a[][0];}@1 4
int main(void){int a[2][];}@1 3
int main(void){int$a[2][]={{1}};}@2 3
int main(void){int a[0][];}@1 3
int main(void){return sizeof(int[2][]);}@1 3
typedef int T[2][];int main(void){}@1 3
struct S{int a[2][];};int main(void){}@1 3
int f(int x[2][]);int main(void){}@1 3
int f(int x[][]);int main(void){}@1 3
int main(void){int (a[2])[0];}@1 4
int main(void){int x;int a[x];}@1 13
int main(void){int a[$1/0];}@2 13
int main(void){int x;int$x[0];}@2 2
int main(void){void x[0];}@1 3
int main(void){static int x;}@
int main(void){$extern int x;}@
$int x;int main(void){}@
int x[y];int main(void){}@1 1
int;int main(void){}@
int main(void){$y;}int x;@2 1";

// The same. Statements and the order of their parts (C11 6.8).
const STATEMENTS: &str = "\
int main(void){int x=nondet_int();assert(x!=7);return 0;}@
int main(void){int x,y=x,z=z;return y;}@
int main(void){int x=1;{int x=x;}{int x=2;}return x;}@
int main(void){int x=1u;return 1l;}@
int main(void){int main;return main;}@
int main(void){if(1)return 0;else{}}@
int main(void){if(1)assert(0);}@
int main(void){int x;$int x;}@2 2
int main(void){int x;{int x;}int y,$x;}@2 2
int main(void){int x=$assert(1);}@1 8
int main(void){if(assert(1))$return;}@2 16
int main(void){$if(assert(1))return 0;}@2 17
int main(void){return$assert(1);}@1 8
int main(void){}$int main(void){}@2 2
int main(void){y;}$int main(void){}@1 1
int main(void){{int x;}$x;}@2 1
int main(void){x=1;int x;}@1 1
int main(void){if(y)return;}@1 1";

// The same. Objects that live as long as the program (C11 6.2.2, 6.9.2).
const OBJECTS: &str = "\
int x;int main(void){}@
int x=5;char c;int main(void){}@
const int x=-1;int main(void){}@
int x;int x;int x=3;int main(void){}@
int x=1;$int x=2;int main(void){}@2 2
int x;$char x;int main(void){}@2 2
int x;$const int x;int main(void){}@2 2
int x;$typedef int x;int main(void){}@2 2
int main(void){}$int main;@2 2
extern int x;int main(void){}@
extern int x;int x;int main(void){}@
int x;extern int x;int main(void){}@
extern int x=2;int main(void){}@
$extern int x[];int main(void){}@
extern int x[];int x[2];int main(void){}@
extern int x[];int main(void){return sizeof x;}@1 3
extern int x[2][];int main(void){}@1 3
extern int x[][];int main(void){}@1 3
extern int x[];$int x[];int main(void){}@2 4
int x[2];$int x[];int main(void){}@2 4
extern int x[];$char x[];int main(void){}@2 2
int x;$int x[0];int main(void){}@2 2
struct S;extern struct S s;$struct S s;int main(void){}@2 3
int x[];int main(void){}@1 4
int x[]={1,2};int main(void){}@
char x[]=\"ab\";int main(void){}@
struct s{char a;int b;}x={1,2};int main(void){}@
extern struct s x;struct s{int a;};struct s x;int main(void){}@
$struct s x;int main(void){}@2 3
int y;int x=$y;int main(void){}@1 13
int$x=$1/0;int main(void){}@2 13
int$(x)=$nondet_int();int main(void){}@2 13
int main(void){int y;static int$x=$y;}@2 13
int$x=$assert(1);int main(void){}@2 8
int main(void){static int$x=$assert(1);}@2 8
int y;int$x={$y};int main(void){}@2 13
int y;int$x=${1,$y};int main(void){}@3 12
int y;int x[2]=${1,$y};int main(void){}@2 13
int y;int x[1]=${1,$y};int main(void){}@2 12
int x[2]=${nondet_int(),$assert(1)};int main(void){}@2 8
int y;int x[2]={y,$assert(1)+1};int main(void){}@2 7
int y;int x[2][2]={{1},$ {y},{2},{3}};int main(void){}@2 13
int y;int$x[2]=$y;int main(void){}@2 12
struct s{int a;}y;struct s$x=$y;int main(void){}@2 13
struct s{int a;}y;struct s x[1]=${$y};int main(void){}@2 13
struct s{int a;}$x=$nondet_int();int main(void){}@2 12
int x=sizeof x;int main(void){}@
int main(void){static int x=7;static int y;}@
int main(void){static int x;{static int x=1;}}@
int main(void){static int x;$static int x;}@2 2
int main(void){int x;$extern int x;}@2 2
int main(void){extern int x;extern int x;}int x;@
int main(void){int x;{extern int x;}}int x=1;@
int main(void){extern int$x=1;}@2 12
int x;int main(void){extern char$x;}@2 2
int x={1,$2};int main(void){}@1 12
int x,y=2;int z;int main(void){}@
int x;int main(void){x=2;}@
int x,y;int main(void){return y;}@
int x;int main(void){int x;x=1;}@
int x;int main(void){int x;{extern int x;x=1;}x=2;}@
int main(void){static char x;x=1;}@
struct s{int a;int b;}x;int main(void){x.b=1;}@
struct s{int a;int b;}x;int main(void){struct s y=x;}@
const int x;int main(void){$x=1;}@2 9";

// The same. Functions and calls (C11 6.5.2.2, 6.7.6.3, 6.9.1).
const FUNCTIONS: &str = "\
int f(int a,char b){return a+b;}int main(void){return f(1,2);}@
void f();void f(void){}int main(void){f();}@
int f(int);int main(void){f(1);f(3L);}@
int f(void);int main(void){f(),f();(void)f();(int)f();int x=f();}@
int f(void);char g(void);int main(void){1?f():g();(f());int x=(f(),g());}@
struct S{int a,b;};struct S f(struct S s){return s;}int main(void){struct S t;t=f(t);f(t);return f(t).b;}@
int f(int a,...);int main(void){f(1,2,3L);}@
int nondet_x(void);int main(void){return nondet_x();}@
int nondet_x(void);int main(void){return nondet_x();}int nondet_x(void){return 1;}@
int nondet_x(int);int main(void){nondet_x(1);}@
void nondet_x(void);int main(void){nondet_x();}@
int nondet_int(void);void assert(char);void __CPROVER_assume(long x);int main(void){return nondet_int();}@
$int$nondet_int(int);int main(void){}@3 2
long nondet_int(void);int main(void){}@1 2
int nondet_int(void){return 1;}int main(void){}@1 2
void assert(void);int main(void){}@1 2
int f(int);$int f(char);int main(void){}@2 2
int f(const int);int f(int a);int f(int b){return b;}int f(int);int main(void){}@
int f(int a){return a;}$int f(int a){return a;}int main(void){}@2 2
int f;$int f(void);int main(void){}@2 2
int f(void);$int f;int main(void){}@2 2
int main(void){int f;$int f(void);}@2 2
int main(void){int f(void);$int f;}@2 2
int main(void){int f(void);return f();}int f(void){return 2;}@
int main(void){int f(void);}$long f(void);@2 2
int main(void){extern int f;}$int f(void);@2 2
int f(void);int main(void){$extern int f;}@2 2
typedef int F(int);F f;int f(int a){return a;}int main(void){F g;return f(1)+g(2);}@
typedef int F(int);typedef int F(int);typedef F G;G f;int main(void){}@
typedef int F(int);$typedef int F(char);int main(void){}@2 2
typedef int F(int);int main(void){return sizeof(F);}@1 3
typedef int F(int);int main(void){(F)1;}@1 7
typedef int F(int);struct S{F f;};int main(void){}@1 3
typedef int F(int);F a[3];int main(void){}@1 3
typedef int F(int);F f(void);int main(void){}@1 6
typedef int A[3];A f(void);int main(void){}@1 6
int f(void)[3];int main(void){}@1 6
int f(void)(void);int main(void){}@1 6
int f[3](void);int main(void){}@1 3
int f(int,void);int main(void){}@1 6
int f(void x);int main(void){}@1 3
int f(struct S s);int main(void){}@1 3
int f(int a,$int a);int main(void){}@2 2
int f(int a[3]);int main(void){}@1 7
int f(int a[]);int main(void){}@1 7
int f(int a[0]);int main(void){}@1 4
int f(int a(void));int main(void){}@1 7
$int f(int){return 1;}int main(void){}@2 6
int f(int a){$int a;}int main(void){}@2 2
int f(int f){return f;}int main(void){return f(1);}@
struct S;struct S f(void);int main(void){$f();}@2 3
struct S;struct S f(void){}int main(void){}@1 3
int f(int);int main(void){$f();}@2 10
int f(int);int main(void){f(1,2);}@1 10
struct S{int a;}s;int f(int);int main(void){f(s);}@1 8
int f(int);int x;int main(void){x(1);}@1 10
int f(int);int main(void){(f)(1);((f))(2);}@
int f(int);int main(void){f(1)(2);}@1 10
int main(void){1(2);}@1 10
int main(void){return main();}@
int main(void){main(1);}@1 10
int f(int);int main(void){f(f);}@1 8
int f(int);int main(void){f;1,f;(void)f;return 0;}@
int f(int);int main(void){return -f;}@1 7
int f(int);int main(void){if(f);}@1 17
int f(int);int main(void){return sizeof f;}@1 3
int main(void){return sizeof assert;}@1 3
int main(void){assert;(void)__CPROVER_assume;1,nondet_int;return 0;}@
int main(void){return -nondet_int;}@1 7
struct S{int a[2];};struct S f(void);int main(void){return sizeof(f().a,1)+sizeof(1?(f().a,1):2);}@
struct S{int a[2];};struct S f(void);int main(void){$f().a,1;return 0;}@2 9
struct S{int a[2];};struct S f(void);int main(void){return $sizeof(f().a+1);}@2 9
int f(int);int main(void){int x=f;}@1 8
int f(void);int main(void){for(f();f();f());}@
int f(int a,char b);int main(void){return f(1,$f(2,3));}@
static int f(void),x,g(int a);int main(void){return x;}@
int f(enum{A=7}x){return A;}int main(void){}@
int f(enum{A=7}x);int main(void){return A;}@1 1
int f(int a,enum{A=sizeof a}x){return A;}int main(void){}@
int (f)(int a){return a;}int$($g)(int a){return a;}int main(void){}@";

// The same. Loops, switches and jumps (C11 6.8.1, 6.8.4 to 6.8.6).
const JUMPS: &str = "\
int main(void){while(1)do;while(2);for(;;)continue;}@
int main(void){for(int i=0;i;i=2){int i;break;}}@
int main(void){for(int i=0;;){for(;;);}while(0);}@
int main(void){break;}@1 14
int main(void){continue;}@1 14
int main(void){switch(1)continue;}@1 14
int main(void){while(1)switch(1)continue;}@
int main(void){case 1:;}@1 14
int main(void){default:;}@1 14
int main(void){int x;switch(x){case 1:x=1;case 2:case 3:x=2;break;default:x=3;}}@
int main(void){char c;switch(c){case 257:;case 1:;}}@
int main(void){unsigned char c;long x;switch(x){case -1:;}}@
int main(void){unsigned x;switch(x){case -1:;case$4294967295:;}}@1 14
int main(void){switch(1){case 1:;$case 1:;}}@2 14
int main(void){switch(1){default:;$default:;}}@2 14
int main(void){switch(1){case 1:switch(2){case 1:;default:;}default:;}}@
int main(void){int x;switch(1){case x:;}}@1 13
struct S{int a;}s;int main(void){$switch(s);}@2 17
struct S{int a;}s;int main(void){switch(s){$case 1/0:;}}@2 13
struct S{int a;}s;int main(void){$while(s)x;}@2 1
struct S{int a;}s;int main(void){while(s);}@1 17
struct S{int a;}s;int main(void){do;while(s);}@1 17
struct S{int a;}s;int main(void){for(;s;);}@1 17
struct S{int a;}s;int main(void){for(s;;s);}@
int main(void){switch(1)case 1:;}@
int main(void){switch(1){if(1)case 1:;{default:;}}}@
int main(void){goto L;L:;}@
int main(void){L:M:;goto M;}@
int main(void){if(1)L:;else M:;goto M;}@
int main(void){goto L;}@1 15
int main(void){L:;$L:;}@2 15
int main(void){L:;{$L:;}}@2 15
int main(void){int L;typedef int T;T:L:L=1;}@
int main(void){switch(1){L:case 1:M:default:;}}@
int main(void){goto L;int x=1;L:;int y=2;}@
int main(void){{goto L;}int x=1,z=3;{int w=1;L:;}int y=2;M:;}@
int main(void){L:;int x=1;goto L;}@
int main(void){if(1)goto M;int x=1;L:;int y=2;M:;}@
int main(void){switch(1){case 1:;int x=1;case 2:;int y=1;}}@
int main(void){switch(1){int x=1;default:;}}@
int main(void){switch(1){{int x=1;}case 2:;}}@
void f(void){return;}int main(void){}@
void f(void){return 1;}int main(void){}@1 16
int main(void){return;}@1 16
struct S{int a;}s;struct S f(void){return s;}int main(void){}@
struct S{int a;}s;struct S f(void){return 1;}int main(void){}@1 8
char f(void){return 300;}int main(void){}@
int f(void){L:;return 0;}int main(void){$goto L;}@2 15";

// The same of expressions, each a statement behind these declarations. Expressions (C11 6.5) over an int `x`, `u`, `l`, `c` and `b`.
const EXPRESSIONS: [&str; 2] = [
    "int main(void){int x;unsigned u;long l;char c;_Bool b;",
    "\
x+u@
u-l@
c*b@
c<<l@
l>>c@
x<u@
c&&!l@
-c@
~u@
++c@
(x)--@
c=l@
c+=l@
x<<=l@
x?c:l@
c?assert(x):assert(u)@
x,u@
4294967295u@
0xffffffffff@
__CPROVER_assume(l)@
nondet_bool()@
nondet_size_t()@
nondet_ushort()@
y@1 1
x+$y+z@2 1
y(z)@1 1
assert($y)@2 1
x($y)@2 1
x(1)@1 10
$assert(x)$+1@2 7
assert(x)+$y@2 1
1,$-assert(x)@2 7
assert(x)?1:2@1 7
x?1:assert(x)@1 7
x=assert(x)@1 8
1=x@1 9
1=assert(x)@1 8
assert(x)+=1@1 7
1+=x@1 9
++1@1 9
assert(x)++@1 7
assert(x,1)@1 10
assert(assert(x),1)@1 8
assert()@1 10
assert(assert(1))@1 8
nondet_int(1)@1 10
nondet_int(assert(1))@1 10",
];

// The same. Type names (C11 6.7.7).
const TYPE_NAMES: [&str; 2] = [
    "typedef int T;typedef unsigned char U;typedef int A[3];struct S{int a,b;};union V;enum N{E=5,M=-1};int main(void){int x;long l;char c;const int k=1;",
    "\
'a'@
'\\377'@
E@
M+1u@
sizeof x@
sizeof(x+l)@
sizeof(char)@
sizeof(signed short)@
sizeof(const unsigned volatile)@
sizeof(long int long unsigned)@
sizeof(short int signed)@
sizeof(_Bool)@
sizeof(T)@
sizeof(A)@
sizeof(A[2])@
sizeof(char[3][5])@
sizeof(char([3])[5])@
sizeof(size_t)@
sizeof(int8_t)@
sizeof(pthread_mutex_t)@
sizeof(struct S)@
sizeof(struct S[E*2-7])@
sizeof(enum N)@
sizeof \"abc\"@
sizeof(\"a\\x41\\1234\\n\" \"\")@
sizeof(x=1/0)@
sizeof(int[1?2:1/0])@
sizeof(char[(U)300])@
sizeof(char[sizeof(int[3])])@
(U)x@
(int)x@
(T)c+1@
(void)assert(x)@
(long)(char)x@
k+1@
($int int)x@2 5
sizeof(U$char)@1 5
sizeof(unsigned signed)@1 5
sizeof(const)@1 5
sizeof(long long long)@1 5
1+$sizeof(struct Z)@2 1
sizeof(int struct Z)@1 1
sizeof(union S)@1 18
sizeof(int enum S)@1 5
sizeof(Q)@1 1
$sizeof(union V)@2 3
sizeof(void)@1 3
sizeof(union V$[3])@2 3
sizeof assert(x)@1 3
sizeof(int$[0])@2 4
sizeof(int[0-1])@1 4
sizeof(int[])@1 4
sizeof(char[2147483648u])@1 4
sizeof(int[2]$[$x])@3 13
sizeof(int[1/0])@1 13
sizeof(int[1||x])@1 13
\"a\"@1 7
sizeof(A[536870912/3])@",
];

// The same. Values that are no places (C11 6.5.16).
const PLACES: [&str; 2] = [
    "typedef int A[3];struct S{int a;};enum{E=5};int main(void){int x;const int k=1;",
    "\
((int)x)=1@1 9
((int)x)+=1@1 9
++((int)x)@1 9
k=1@1 9
k+=1@1 9
(k)++@1 9
--k@1 9
k=assert(x)@1 8
k+=assert(x)@1 7
E=1@1 9
E(1)@1 10
x=k@
(void)x@
1+$(struct S)x@2 7
(A)x@1 7
(int)$assert(x)@1 7
(int[x])y@1 13
(int)$y@2 1
x.y@1 11
y$.x@1 1",
];

// The same. Members (C11 6.5.2.3).
const MEMBERS: [&str; 2] = [
    "int main(void){int x;struct R{int c,a;const char b;int n[3];struct{int a;const int b;}s;}r,t;const struct R q;int m[3];",
    "\
r.c@
r.a@
(r).b+1@
r$.$s@
r.s.a=x@
t.s.a++@
r.c+=t.a@
$q@
q.s@
r.b=1@1 9
r.s.b=1@1 9
++r.s.b@1 9
q.c=1@1 9
q.s.a++@1 9
$r$.d@2 11
r.s.c@1 11
r.c.a@1 11
$m@2 7
x+$m@2 7
x+$($m)@3 7
m$=1@1 7
m.a@1 7
r.n@1 7
sizeof m@
sizeof((m))@
sizeof r.n@
sizeof r@
sizeof r.s@
sizeof r.b@
sizeof(m,1)@
sizeof r.d@1 11
-r@1 7
r+1@1 7
r++@1 7
r+=1@1 7
r=1@1 8
x=r@1 8
r=r.s@1 8
q=r@1 9
r=t@1 9
x?r:r.s@1 7
x?r:1@1 7
r?1:2@1 7
assert(r)@1 8
(int)r@1 7",
];

// The same. Values of structs (C11 6.5.16.1).
const STRUCTURES: [&str; 2] = [
    "struct W{int a,n[3];struct{char b;}i;};int main(void){int x;struct W w,z;const struct W k;",
    "\
w=z@
w=k@
w.i=z.i@
w=z=k@
x?w:z@
w=(x?w:z)@
w,z@
x,z@
w,x@
(void)w@
(void)(w=z)@
(void)x@
(void)assert(x)@
(w=z).a@
(x,z).i@
(x,z).i.b+1@
sizeof(w=z)@
sizeof (w=z).n@
sizeof((x,z).i)@
$((w=z)$.n)+1@2 9
x+($(w=z).n)@2 9
(w=z).n@1 9
(w=z).c@1 11
(w=z)=w@1 9
(w=z)=1@1 8
(x?w:z)=k@1 9
(w=z).a=1@1 9
(w=z)+=1@1 7
k=w@1 9
w=z.i@1 8
w=x@1 8
x=(w=z)@1 8
x?w:z.i@1 7
-(w=z)@1 7
(int)(w=z)@1 7
assert(w=z)@1 8",
];

/// A file with this beginning, a row's text and this end.
fn file(alloc: Global, before: &str, text: &str, behind: &str) -> Result<String, AllocError> {
    let mut file = String::from_str(alloc, before)?;
    for letter in text.chars() {
        file.push(if letter == '$' { '\n' } else { letter })?;
    }
    file.push_str(behind)?;
    Ok(file)
}

/// The line and the rule that a file breaks, or nothing.
fn outcome(alloc: Global, file: &str) -> Result<String, Fail> {
    let text = file.as_bytes();
    if text.len() > 10_000 {
        return Err(Fail::from("too long"));
    }
    let tokens = lex(alloc, text)?;
    let tree = parse(alloc, &tokens)?;
    match elaborate(alloc, &tree) {
        Ok(_) => Ok(String::new(alloc)),
        Err(TypingError::Typing { line, rule }) => Ok(format!(in alloc; "{line} {rule}")?),
        Err(TypingError::Memory) => Err(Fail::from("memory")),
    }
}

/// The first row that has another outcome, if one has.
fn first_wrong(
    alloc: Global,
    before: &str,
    rows: &'static str,
    behind: &str,
) -> Result<Option<&'static str>, Fail> {
    for row in rows.lines() {
        let (text, wanted) = row.split_once('@').unwrap_or((row, ""));
        let text = file(alloc, before, text, behind)?;
        if outcome(alloc, text.as_str())?.as_str() != wanted {
            return Ok(Some(row));
        }
    }
    Ok(None)
}

// The tables of whole files.
const FILES: [&str; 9] = [
    VARIABLES,
    TYPEDEFS,
    ENUMERATORS,
    RECORDS,
    INITIALIZERS,
    STATEMENTS,
    OBJECTS,
    FUNCTIONS,
    JUMPS,
];

// The tables of expressions, each with what stands before them.
const BEHIND: [[&str; 2]; 5] = [EXPRESSIONS, TYPE_NAMES, PLACES, MEMBERS, STRUCTURES];

#[test]
fn files_are_typed_or_break_a_rule(rt: HostRuntime) -> Result<(), Fail> {
    for rows in FILES {
        assert_eq!(rt; first_wrong(rt.alloc(), "", rows, "")?, None);
    }
    Ok(())
}

#[test]
fn expressions_are_typed_or_break_a_rule(rt: HostRuntime) -> Result<(), Fail> {
    for [before, rows] in BEHIND {
        assert_eq!(rt; first_wrong(rt.alloc(), before, rows, ";}")?, None);
    }
    Ok(())
}
