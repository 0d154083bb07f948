//! Tests of trees with objects, pointers and heap, as tables.

// Rows "TURNS CLASS LINE FUNCTION INPUTS@C TEXT@TREE" on one thread: in the turn with that number the check of that class breaks at
// that line of the tree, in the function with that number, and before it none; so the table tells also in how many turns the text
// comes there. Where the class is `none` no check breaks, and the turn is that of a further `assert(0)` at the end of the last
// function, in a line of its own; where it is `stop` such an assertion isn't reached. The C text is what the tree stands for.

use crate::machines::outcomes;
use c_profile::{Admitted, admit};
use core_tree::Bounds;
use interleave::{Inputs, Outcome, Words};
use std::alloc::{AllocError, Global};
use std::test::*;
use tree_notation::{Unread, tree_of};
use words::{Check, Class};

// Accesses and subscripts: null, invalid-pointer, lifetime, bounds, readonly, in this order.
const ACCESSES: &str = "\
2 bounds 1 0 3@int a[3];int main(void){int i=nondet_int();__CPROVER_assume(i==3);return a[i];}@object:12 int:main i:4 { int? i:= i int 3 == assume ; #1 i int [4/12] int return } end
4 none 1 0@int main(void){int a[3];int *p=&a[3];assert(p!=0);}@int:main a:12& p:8 { a! a 3 [4/12] & p:= p ulong 0ul != assert ; } end
4 bounds 1 0@int main(void){int a[3];int *p=&a[4];return 0;}@int:main a:12& p:8 { a! a 4 [4/12] & p:= 0 return } end
3 bounds 1 0@int main(void){int a[3];int i=-1;a[i]=0;return 0;}@int:main a:12 i:4 { a! -1 i:= a i int [4/12] 0 int= ; 0 return } end
4 none 1 0@int main(void){int a[2][3];a[0][5]=1;assert(a[1][2]==1);}@int:main a:24 { a! a 0 [12/24] 5 [4/24] 1 int= ; a 1 [12/24] 2 [4/24] int 1 == assert ; } end
1 bounds 1 0@int a[4];int main(void){return a[1073741824L];}@object:16 int:main { #1 1073741824ul [4/16] int return } end
1 null 1 0@int main(void){int *p=0;return p[0];}@int:main p:8 { 0ul p:= p ulong 0 [4] int return } end
1 null 1 0@int main(void){int *p=0;return 0[p];}@int:main p:8 { 0ul p:= 0 p ulong [4]~ int return } end
1 null 1 0@int main(void){int *p=0;p=&p[0];return 0;}@int:main p:8 { 0ul p:= p p ulong 0 [4] & ulong= ; 0 return } end
1 none 1 0@int main(void){int *p=0;p=&*p;assert(p==0);}@int:main p:8 { 0ul p:= p p ulong * & ulong= ; p ulong 0ul == assert ; } end
1 null 1 0@int main(void){int *p=0;return *p;}@int:main p:8 { 0ul p:= p ulong * int return } end
1 null 1 0@int main(void){int *p=0;*p=1;return 0;}@int:main p:8 { 0ul p:= p ulong * 1 int= ; 0 return } end
1 null 1 0@int main(void){int *p=(int *)4;return *p;}@int:main p:8 { 4ul p:= p ulong * int return } end
1 invalid-pointer 1 0@int main(void){int *p=(int *)-1;return *p;}@int:main p:8 { -1 (ulong) p:= p ulong * int return } end
1 invalid-pointer 1 0@int main(void){int *p=(int *)-1;return p[0];}@int:main p:8 { -1 (ulong) p:= p ulong 0 [4] int return } end
1 invalid-pointer 1 0@int x;int main(void){int *p=(int *)((long)&x*2);*p=1;return 0;}@object:4 int:main p:8 { 8589934592ul p:= p ulong * 1 int= ; 0 return } end
1 null 1 0@struct S{int a;int b;};int main(void){struct S *s=0;return s->b;}@int:main s:8 { 0ul s:= s ulong ->4 int return } end
1 none 1 0@struct S{int a;int b;};int main(void){struct S *s=0;int *p=&s->b;assert((long)p==4);}@int:main s:8 p:8 { 0ul s:= s ulong ->4 & p:= p ulong 4ul == assert ; } end
1 none 1 0@struct S{int a;int b;};int main(void){struct S *s=(struct S *)8589934588L;int *p=&s->b;assert((long)p==4294967296L);}@int:main s:8 p:8 { 8589934588ul s:= s ulong ->4 & p:= p ulong 4294967296ul == assert ; } end
1 none 1 0@struct S{int a;int b;};int main(void){struct S *s=(struct S *)8589934588L;int *p=&(*s).b;assert((long)p==4294967296L);}@int:main s:8 p:8 { 8589934588ul s:= s ulong * .4 & p:= p ulong 4294967296ul == assert ; } end
5 none 1 0@struct S{int a;int b;}t[2];int main(void){struct S *s=t;s[1].b=5;assert(t[1].b==5);assert((long)&s[1].b==4294967308L);}@object:16 int:main s:8 { #1 & s:= s ulong 1 [8] .4 5 int= ; #1 1 [8/16] .4 int 5 == assert ; s ulong 1 [8] .4 & 4294967308ul == assert ; } end
4 lifetime 1 0@int main(void){int *p=malloc(4);free(p);return *p;}@int:main p:8 { 4ul malloc p:= p ulong free ; p ulong * int return } end
4 lifetime 1 0@int main(void){int *p=malloc(4);free(p);return p[0];}@int:main p:8 { 4ul malloc p:= p ulong free ; p ulong 0 [4] int return } end
4 lifetime 1 0@int main(void){int *p=malloc(4);free(p);return p[9];}@int:main p:8 { 4ul malloc p:= p ulong free ; p ulong 9 [4] int return } end
4 lifetime 1 0@int main(void){int *p=malloc(4);free(p);*p=1;return 0;}@int:main p:8 { 4ul malloc p:= p ulong free ; p ulong * 1 int= ; 0 return } end
4 lifetime 1 0@int main(void){char *p=malloc(1);free(p);long *q=(long *)p;return *q;}@int:main p:8 { 1ul malloc p:= p ulong free ; p ulong * long (int) return } end
4 bounds 1 0@int main(void){int a[2];int *p=a;p[3]=1;return 0;}@int:main a:8& p:8 { a! a & p:= p ulong 3 [4] 1 int= ; 0 return } end
4 bounds 1 0@int main(void){int a[2];int *p=a;p[2]=1;return 0;}@int:main a:8& p:8 { a! a & p:= p ulong 2 [4] 1 int= ; 0 return } end
4 bounds 1 0@int main(void){int a[2];int *p=a;return p[-1];}@int:main a:8& p:8 { a! a & p:= p ulong -1 [4] int return } end
6 bounds 1 0@int main(void){int a[4];unsigned long i=0;i=i-1;int *p=a+1;return p[i];}@int:main a:16& i:8 p:8 { a! 0ul i:= i i ulong 1ul - ulong= ; a & 1 p+4 p:= p ulong i ulong [4] int return } end
4 bounds 1 0@int main(void){int x=1;char *c=(char *)&x;int *p=(int *)(c+1);return *p;}@int:main x:4& p:8 { 1 x:= x & 1 p+1 p:= p ulong * int return } end
2 bounds 1 0@int main(void){char *s=\"ab\";s[3]='c';return 0;}@string:ab int:main s:8 { '0 & s:= s ulong 3 [1] 99 (char) char= ; 0 return } end
2 readonly 1 0@int main(void){char *s=\"ab\";s[2]='c';return 0;}@string:ab int:main s:8 { '0 & s:= s ulong 2 [1] 99 (char) char= ; 0 return } end
3 none 1 0@int main(void){char *s=\"ab\";assert(s[1]==98);}@string:ab int:main s:8 { '0 & s:= s ulong 1 [1] char (int) 98 == assert ; } end
1 readonly 1 0@const int c=1;int main(void){int *p=(int *)&c;*p=2;return 0;}@const:4 int:main p:8 { #1 & p:= p ulong * 2 int= ; 0 return } end
2 readonly 1 0@const int a[2]={1,2};int main(void){int *p=(int *)a;p[1]=3;return 0;}@const:8 int:main p:8 { #1 & p:= p ulong 1 [4] 3 int= ; 0 return } end
4 none 1 0@int main(void){const int x=5;const int *p=&x;assert(*p==5);}@int:main x:4&const p:8 { 5 x:= x & p:= p ulong * int 5 == assert ; } end
3 readonly 1 0@int main(void){const int x=5;int *p=(int *)&x;*p=6;return 0;}@int:main x:4&const p:8 { 5 x:= x & p:= p ulong * 6 int= ; 0 return } end
4 readonly 1 0@int main(void){const int x=5;int *p=(int *)&x;++*p;return 0;}@int:main x:4&const p:8 { 5 x:= x & p:= p ulong * ++int ; 0 return } end
5 none 1 0@int main(void){int x=0x01020304;char *c=(char *)&x;short *h=(short *)(c+1);assert(*h==0x0203);}@int:main x:4& h:8 { 16909060 x:= x & 1 p+1 h:= h ulong * short (int) 515 == assert ; } end
4 none 1 0@int main(void){unsigned char b=2;_Bool *p=(_Bool *)&b;assert(*p==1);}@int:main b:1& p:8 { 2 (uchar) b:= b & p:= p ulong * bool (int) 1 == assert ; } end
3 none 1 0@struct S{int a;int b;}s,t;int main(void){struct S *p=&s;t=*p;}@object:8 object:8 int:main p:8 { #1 & p:= #2 p ulong * @8 = drop ; } end
4 lifetime 1 0@struct S{int a;int b;};int main(void){struct S *p=0;{struct S s;p=&s;}struct S t=*p;return 0;}@int:main p:8 s:8& t:8 { 0ul p:= { s! p s & ulong= ; } p ulong * @8 t@= 0 return } end
9 none 1 0@int main(void){int a[2][3];int (*p)[3]=a;p[0][5]=5;assert(a[1][2]==5);}@int:main a:24& p:8 { a! a & p:= p ulong 0 [12] & 5 [4] 5 int= ; a 1 [12/24] 2 [4/24] int 5 == assert ; } end
1 none 1 0@int x;int main(void){_Bool b=&x;assert(b==1&&(_Bool)(char)(long)&x==0);}@object:4 int:main b:1 { #1 & (bool) b:= b bool (int) 1 == #1 & (long) (char) (bool) (int) 0 == && assert ; } end
1 division 1 0@int main(void){int *p=0;return p[1/0];}@int:main p:8 { 0ul p:= p ulong 1 0 / [4] int return } end
3 none 1 0@int x,y;int main(void){long a=(long)&x;a=a+((long)&y-(long)&x);int *p=(int *)a;*p=3;assert(y==3);}@object:4 object:4 int:main a:8 { #1 & (long) a:= a a long #2 & (long) #1 & (long) - + long= ; a long (ulong) * 3 int= ; #2 int 3 == assert ; } end
1 bounds 1 0@int a[4];int main(void){return a[4611686018427387904L];}@object:16 int:main { #1 4611686018427387904ul [4/16] int return } end
2 bounds 1 0@int a[4];int main(void){int *p=a;return p[4611686018427387904L];}@object:16 int:main { #1 & 4611686018427387904ul [4] int return } end
1 null 1 0@int x;int main(void){int *p=(int *)((long)&x-1);return *p;}@object:4 int:main p:8 { #1 & 1ul - p:= p ulong * int return } end
1 bounds 1 0@int x;int main(void){int *p=(int *)((long)&x+4294967295L);return *p;}@object:4 int:main p:8 { #1 & 4294967295ul + p:= p ulong * int return } end
3 bounds 1 0@int main(void){char *p=malloc(0);return p[0];}@int:main p:8 { 0ul malloc p:= p ulong 0 [1] char (int) return } end
5 none 1 0@struct S{int a;int b;};int main(void){struct S s;struct S *p=&s;p->b=2;assert(s.b==2);}@int:main s:8& p:8 { s! s & p:= p ulong ->4 2 int= ; s.4 int 2 == assert ; } end
4 none 1 0@struct S{int a;int b;}s;int main(void){struct S *p=&s;s.b=2;*p=*p;}@object:8 int:main p:8 { #1 & p:= #1.4 2 int= ; p ulong * p ulong * @8 = drop ; } end";

// The same of sums, differences, relations and equality.
const SUMS: &str = "\
1 pointer 1 0@int main(void){int *p=0;p=p+0;return 0;}@int:main p:8 { 0ul p:= p p ulong 0 p+4 ulong= ; 0 return } end
1 pointer 1 0@int main(void){int *p=(int *)-1;p=p+0;return 0;}@int:main p:8 { -1 (ulong) p:= p p ulong 0 p+4 ulong= ; 0 return } end
4 pointer 1 0@int main(void){int *p=malloc(4);free(p);p=p+1;return 0;}@int:main p:8 { 4ul malloc p:= p ulong free ; p p ulong 1 p+4 ulong= ; 0 return } end
4 none 1 0@int main(void){int a[2];int *p=a;p=p+2;}@int:main a:8& p:8 { a! a & p:= p p ulong 2 p+4 ulong= ; } end
5 pointer 1 0@int main(void){int a[2];int *p=a;p=p+2;p=p+1;return 0;}@int:main a:8& p:8 { a! a & p:= p p ulong 2 p+4 ulong= ; p p ulong 1 p+4 ulong= ; 0 return } end
4 pointer 1 0@int main(void){int a[2];int *p=a;p=p-1;return 0;}@int:main a:8& p:8 { a! a & p:= p p ulong 1 p-4 ulong= ; 0 return } end
5 none 1 0@int main(void){int a[2];int *p=a;p=p+2;p=p-2;assert(p==a);}@int:main a:8& p:8 { a! a & p:= p p ulong 2 p+4 ulong= ; p p ulong 2 p-4 ulong= ; p ulong a & == assert ; } end
2 none 1 0@int x;int main(void){int *p=&x;p=p+1;assert((int)(long)p==4);}@object:4 int:main p:8 { #1 & p:= p p ulong 1 p+4 ulong= ; p ulong (long) (int) 4 == assert ; } end
2 pointer 1 0@int x;int main(void){int *p=&x+4611686018427387904L;return 0;}@object:4 int:main p:8 { #1 & 4611686018427387904ul p+4 p:= 0 return } end
5 pointer 1 0@int main(void){int a[1];int *p=a;p++;p++;return 0;}@int:main a:4& p:8 { a! a & p:= p p++4 ; p p++4 ; 0 return } end
4 pointer 1 0@int main(void){int a[1];int *p=a;--p;return 0;}@int:main a:4& p:8 { a! a & p:= p --p4 ; 0 return } end
6 none 1 0 8589934593@int main(void){int a[2];int *p=a;assert(*p++==1&&*p==2);}@int:main a:8& p:8 { a! a & p:= p p++4 * int 1 == p ulong * int 2 == && assert ; } end
5 none 1 0 8589934593@int main(void){int a[2];int *p=a;assert(*++p==2);}@int:main a:8& p:8 { a! a & p:= p ++p4 * int 2 == assert ; } end
6 none 1 0 8589934593@int main(void){int a[2];int *p=a+1;assert(*--p==1);}@int:main a:8& p:8 { a! a & 1 p+4 p:= p --p4 * int 1 == assert ; } end
5 pointer 1 0@int main(void){int a[2];int *p=a;p+=2;p+=1;return 0;}@int:main a:8& p:8 { a! a & p:= p 2 p+=4 ; p 1 p+=4 ; 0 return } end
4 pointer 1 0@int main(void){int a[2];int *p=a;p-=1;return 0;}@int:main a:8& p:8 { a! a & p:= p 1 p-=4 ; 0 return } end
9 none 1 0@int main(void){int a[2];int *q=a;int **r=&q;*r+=1;assert(q==&a[1]);}@int:main a:8& q:8& r:8 { a! a & q:= q & r:= r ulong * 1 p+=4 ; q ulong a 1 [4/8] & == assert ; } end
4 lifetime 1 0@int main(void){int **r=malloc(8);free(r);*r+=1;return 0;}@int:main r:8 { 8ul malloc r:= r ulong free ; r ulong * 1 p+=4 ; 0 return } end
4 lifetime 1 0@int main(void){int **r=malloc(8);*r+=(free(r),1);return 0;}@int:main r:8 { 8ul malloc r:= r ulong * r ulong free 1 , p+=4 ; 0 return } end
4 pointer 1 0@int main(void){int **r=malloc(8);*r+=1;return 0;}@int:main r:8 { 8ul malloc r:= r ulong * 1 p+=4 ; 0 return } end
5 pointer 1 0@int main(void){int a[2],b[2];int *p=a,*q=b;return p-q;}@int:main a:8& b:8& p:8 q:8 { a! b! a & p:= b & q:= p ulong q ulong p~4 (int) return } end
1 pointer 1 0@int x,y;int main(void){return &x<&y;}@object:4 object:4 int:main { #1 & #2 & p< return } end
1 pointer 1 0@int x;int main(void){int *p=0;return &x>p;}@object:4 int:main { #1 & 0ul p> return } end
1 none 1 0@int x,y;int main(void){assert(&x!=&y);}@object:4 object:4 int:main { #1 & #2 & != assert ; } end
5 none 1 0@int main(void){int a[4];int *p=a;char *c=(char *)p;int *q=(int *)(c+7);assert(q-p==1&&p-q==-1);}@int:main a:16& p:8 q:8 { a! a & p:= p ulong 7 p+1 q:= q ulong p ulong p~4 1 (long) == p ulong q ulong p~4 -1 (long) == && assert ; } end
1 none 1 0@int main(void){int *p=0,*q=0;assert(p<=q&&!(p<q));}@int:main p:8 q:8 { 0ul p:= 0ul q:= p ulong q ulong p<= p ulong q ulong p< ! && assert ; } end
5 none 1 0@int main(void){int *p=malloc(8);int *q=p+1;free(p);assert(q-p==1&&p<q);}@int:main p:8 q:8 { 8ul malloc p:= p ulong 1 p+4 q:= p ulong free ; q ulong p ulong p~4 1 (long) == p ulong q ulong p< && assert ; } end
6 none 1 0@int main(void){int *p=malloc(4);free(p);int *q=malloc(4);assert(p!=q);}@int:main p:8 q:8 { 4ul malloc p:= p ulong free ; 4ul malloc q:= p ulong q ulong != assert ; } end
5 none 1 0@int main(void){int a[2];int *p=a+1;p=p+-1;assert(p==a);}@int:main a:8& p:8 { a! a & 1 p+4 p:= p p ulong -1 p+4 ulong= ; p ulong a & == assert ; } end
5 pointer 1 0@int main(void){int a[2];int *p=a+1;p=p+(unsigned)-1;return 0;}@int:main a:8& p:8 { a! a & 1 p+4 p:= p p ulong -1 (uint) p+4 ulong= ; 0 return } end
2 none 1 0@int x;int main(void){int *p=(int *)((long)&x+8);p=p-2;assert(p==&x);}@object:4 int:main p:8 { #1 & 8ul + p:= p p ulong 2 p-4 ulong= ; p ulong #1 & == assert ; } end
2 pointer 1 0@int x;int main(void){int *p=(int *)((long)&x+8);p=p-0;return 0;}@object:4 int:main p:8 { #1 & 8ul + p:= p p ulong 0 p-4 ulong= ; 0 return } end";

// The same of the heap, where each allocation may have 256 bytes.
const HEAP: &str = "\
1 none 1 0@int main(void){free(0);}@int:main { 0ul free ; } end
4 free 1 0@int main(void){char *p=malloc(2);free(p+1);return 0;}@int:main p:8 { 2ul malloc p:= p ulong 1 p+1 free ; 0 return } end
3 free 1 0@int main(void){char *p=malloc(0);free(p);free(p);return 0;}@int:main p:8 { 0ul malloc p:= p ulong free ; p ulong free ; 0 return } end
3 free 1 0@int main(void){int x=0;free(&x);return 0;}@int:main x:4& { 0 x:= x & free ; 0 return } end
1 free 1 0@int x;int main(void){free(&x);return 0;}@object:4 int:main { #1 & free ; 0 return } end
1 free 1 0@int main(void){free(\"ab\");return 0;}@string:ab int:main { '0 & free ; 0 return } end
1 free 1 0@int main(void){free((void *)4);return 0;}@int:main { 4ul free ; 0 return } end
1 free 1 0@int main(void){free((void *)-1);return 0;}@int:main { -1 (ulong) free ; 0 return } end
3 bounds 1 0@int main(void){char *p=malloc(0);assert(p!=0);p=p+0;return *p;}@int:main p:8 { 0ul malloc p:= p ulong 0ul != assert ; p p ulong 0 p+1 ulong= ; p ulong * char (int) return } end
6 assertion 1 0 0 5@int main(void){char *p=malloc(9);assert(p[8]!=5);return 0;}@int:main p:8 { 9ul malloc p:= p ulong 8 [1] char (int) 5 != assert ; 0 return } end
6 assertion 1 0 0 261@int main(void){char *p=malloc(9);assert(p[8]!=5);return 0;}@int:main p:8 { 9ul malloc p:= p ulong 8 [1] char (int) 5 != assert ; 0 return } end
5 bounds 1 0 0 5@int main(void){char *p=malloc(9);return p[9];}@int:main p:8 { 9ul malloc p:= p ulong 9 [1] char (int) return } end
5 bounds 1 0@int main(void){char a[9];char *p=a;return p[9];}@int:main a:9& p:8 { a! a & p:= p ulong 9 [1] char (int) return } end
1 malloc-limit 1 0@int main(void){char *p=calloc(4294967296L,4294967296L);return 0;}@int:main p:8 { 4294967296ul 4294967296ul calloc p:= 0 return } end
2 none 1 0@int main(void){char *p=calloc(0,-1);assert(p!=0);}@int:main p:8 { 0ul 18446744073709551615ul calloc p:= p ulong 0ul != assert ; } end
4 none 1 0 7@int main(void){int *p=calloc(2,4);assert(p[1]==0);}@int:main p:8 { 2ul 4ul calloc p:= p ulong 1 [4] int 0 == assert ; } end
3 bounds 1 0@int main(void){int *p=calloc(2,4);return p[2];}@int:main p:8 { 2ul 4ul calloc p:= p ulong 2 [4] int return } end
1 malloc-limit 1 0@int main(void){int n=-1;char *p=malloc(n);return 0;}@int:main n:4 p:8 { -1 n:= n int (ulong) malloc p:= 0 return } end
34 none 1 0@int main(void){char *p=malloc(256);}@int:main p:8 { 256ul malloc p:= } end
1 malloc-limit 1 0@int main(void){char *p=malloc(257);return 0;}@int:main p:8 { 257ul malloc p:= 0 return } end
2 none 1 0@int main(void){char *p=calloc(16,16);}@int:main p:8 { 16ul 16ul calloc p:= } end
1 malloc-limit 1 0@int main(void){char *p=calloc(1,257);return 0;}@int:main p:8 { 1ul 257ul calloc p:= 0 return } end
7 assertion 1 0 9 0 3@int main(void){unsigned n=nondet_uint();__CPROVER_assume(n<10);char *p=malloc(n);if(n==9)assert(p[8]!=3);return 0;}@int:main n:4 p:8 { uint? n:= n uint 10 (uint) < assume ; n uint (ulong) malloc p:= n uint 9 (uint) == { p ulong 8 [1] char (int) 3 != assert ; } if 0 return } end
1 division 1 0@int main(void){malloc(1/0);return 0;}@int:main { 1 0 / (ulong) malloc ; 0 return } end
1 division 1 0@int main(void){exit(1/0);}@int:main { 1 0 / exit ; } end
0 stop 1 0@int main(void){int x=1;int *p=&x;exit(0);}@int:main x:4& { 1 x:= 0 exit ; } end
0 stop 1 0@int main(void){abort();}@int:main { abort ; } end";

// The same where an allocation may fail.
const FAILING: &str = "\
2 malloc-limit 1 0 0@int main(void){int *p=malloc(5000);assert(p!=0);return 0;}@int:main p:8 { 5000ul malloc p:= p ulong 0ul != assert ; 0 return } end
2 assertion 1 0 1@int main(void){int *p=malloc(5000);assert(p!=0);return 0;}@int:main p:8 { 5000ul malloc p:= p ulong 0ul != assert ; 0 return } end
2 malloc-limit 1 0 2@int main(void){int *p=calloc(5000,1);assert(p!=0);return 0;}@int:main p:8 { 5000ul 1ul calloc p:= p ulong 0ul != assert ; 0 return } end
2 assertion 1 0 1@int main(void){int *p=calloc(5000,1);assert(p!=0);return 0;}@int:main p:8 { 5000ul 1ul calloc p:= p ulong 0ul != assert ; 0 return } end
2 null 1 0 1@int main(void){int *p=malloc(4);*p=1;return 0;}@int:main p:8 { 4ul malloc p:= p ulong * 1 int= ; 0 return } end
5 none 1 0 0 7@int main(void){int *p=malloc(4);assert(*p==7);}@int:main p:8 { 4ul malloc p:= p ulong * int 7 == assert ; } end
4 none 1 0 0 7@int main(void){int *p=calloc(4,1);assert(*p==0);}@int:main p:8 { 4ul 1ul calloc p:= p ulong * int 0 == assert ; } end
2 none 1 0 1@int main(void){int *p=malloc(4);free(p);}@int:main p:8 { 4ul malloc p:= p ulong free ; } end";

// The same of variables with an address: how they begin and die.
const VARIABLES: &str = "\
5 lifetime 1 0@int main(void){int *p;{int x=1;p=&x;}return *p;}@int:main p:8 x:4& { p! { 1 x:= p x & ulong= ; } p ulong * int return } end
7 none 1 0@int main(void){int *p=0;for(int i=0;i<2;i++){int x=i;if(p)assert(p!=&x);p=&x;}}@int:main p:8 i:4 x:4& { 0ul p:= { 0 i:= i int 2 < i int++ { i int x:= p ulong 0ul != { p ulong x & != assert ; } if p x & ulong= ; } for } } end
23 none 1 0@int main(void){int *p=0;for(int i=0;i<3;i++){if(i==0)p=&i;assert(*p==i);}}@int:main p:8 i:4& { 0ul p:= { 0 i:= i int 3 < i int++ { i int 0 == { p i & ulong= ; } if p ulong * int i int == assert ; } for } } end
6 lifetime 1 0@int main(void){int *p=0;for(int i=0;i<2;i++){int x=3;if(i==1)return *p;p=&x;continue;}return 0;}@int:main p:8 i:4 x:4& { 0ul p:= { 0 i:= i int 2 < i int++ { 3 x:= i int 1 == { p ulong * int return } if p x & ulong= ; continue } for } 0 return } end
6 lifetime 1 0@int main(void){int *p=0;int i=0;do{int x=3;if(i)return *p;i=1;p=&x;continue;}while(1);}@int:main p:8 i:4 x:4& { 0ul p:= 0 i:= 1 { 3 x:= i int { p ulong * int return } if i 1 int= ; p x & ulong= ; continue } do } end
4 lifetime 1 0@int main(void){int *p=0;{int x=3;p=&x;goto l;}l:return *p;}@int:main p:8 x:4& { 0ul p:= { 3 x:= p x & ulong= ; goto:0 } label:0 p ulong * int return } end
7 lifetime 1 0@int main(void){int *p=0;{int x=3;{int y=4;p=&x;goto l;}}l:return *p;}@int:main p:8 x:4& y:4& { 0ul p:= { 3 x:= { 4 y:= p x & ulong= ; goto:0 } } label:0 p ulong * int return } end
8 none 1 0@int main(void){int *p=0;{int x=3;p=&x;{int y=4;goto l;}l:assert(*p==3);}}@int:main p:8 x:4& y:4& { 0ul p:= { 3 x:= p x & ulong= ; { 4 y:= goto:0 } label:0 p ulong * int 3 == assert ; } } end
4 lifetime 1 0@int main(void){int *p=0;while(1){int x=3;p=&x;break;}return *p;}@int:main p:8 x:4& { 0ul p:= 1 { 3 x:= p x & ulong= ; break } while p ulong * int return } end
4 lifetime 1 0@int main(void){int *p=0;switch(1){case 1:;int x=3;p=&x;break;}return *p;}@int:main p:8 x:4& { 0ul p:= 1 { case:1 3 x:= p x & ulong= ; break } switch p ulong * int return } end
5 none 1 1@int f(void){int x=5;int *p=&x;return *p;}int main(void){assert(f()==5);}@int:f x:4& p:8 { 5 x:= x & p:= p ulong * int return } end int:main { f() 5 == assert ; } end
4 lifetime 1 1@int *f(void){int x=1;return &x;}int main(void){return *f();}@ulong:f x:4& { 1 x:= x & return } end int:main { f() * int return } end
7 lifetime 1 1@int *f(void){int x=1;{int y=2;return &x;}}int main(void){return *f();}@ulong:f x:4& y:4& { 1 x:= { 2 y:= x & return } } end int:main { f() * int return } end
6 lifetime 1 1@int *p;void f(void){int x=1;p=&x;}int main(void){f();return *p;}@object:8 void:f x:4& { 1 x:= #1 x & ulong= ; } end int:main { f() ; #1 ulong * int return } end
6 assertion 1 1@int f(int a){int *p=&a;*p=*p+1;return a;}int main(void){assert(f(1)==3);return 0;}@int:f (a:int)& p:8 { a & p:= p ulong * p ulong * int 1 + int= ; a int return } end int:main { 1 f() 3 == assert ; 0 return } end
3 lifetime 1 1@int *f(int a){return &a;}int main(void){return *f(1);}@ulong:f (a:int)& { a & return } end int:main { 1 f() * int return } end
5 none 1 1@int *f(int a,int b){return &a;}int main(void){assert((long)f(1,2)==4294967296L);}@ulong:f (a:int)& (b:int)& { a & return } end int:main { 1 2 f() 4294967296ul == assert ; } end
7 none 1 1@int f(int a,int b){return *&a-*&b;}int main(void){assert(f(5,2)==3);}@int:f (a:int)& (b:int)& { a & * int b & * int - return } end int:main { 5 2 f() 3 == assert ; } end
16 none 1 1@int f(int n,int *q){int x=n;if(n==0)return *q;return f(n-1,&x);}int main(void){int z=9;assert(f(3,&z)==1);}@int:f (n:int) (q:ulong) x:4& { n int x:= n int 0 == { q ulong * int return } if n int 1 - x & f() return } end int:main z:4& { 9 z:= 3 z & f() 1 == assert ; } end
25 recursion 1 0@int f(int n){int x=n;int *p=&x;return f(*p);}int main(void){return f(1);}@int:f (n:int) x:4& p:8 { n int x:= x & p:= p ulong * int f() return } end int:main { 1 f() return } end
4 assertion 1 0 7@int main(void){int x;int *p=&x;assert(*p!=7);return 0;}@int:main x:4& p:8 { x! x & p:= p ulong * int 7 != assert ; 0 return } end
4 assertion 1 0@int main(void){int x=7;int *p=&x;assert(*p!=7);return 0;}@int:main x:4& p:8 { 7 x:= x & p:= p ulong * int 7 != assert ; 0 return } end
2 assertion 1 0@int main(void){assert(0);int x=7;int *p=&x;return 0;}@int:main x:4& p:8 { 0 assert ; 7 x:= x & p:= 0 return } end
4 assertion 1 0 9@int main(void){goto l;int x=1;l:;int *p=&x;assert(*p!=9);return 0;}@int:main x:4& p:8 { goto:0 1 x:=? label:0 x & p:= p ulong * int 9 != assert ; 0 return } end
5 none 1 0@int main(void){void *p=&p;assert(p!=0);}@int:main p:8& { p & p:=? p ulong 0ul != assert ; } end
4 assertion 1 0 9@int main(void){switch(1){int x=1;case 1:{int *p=&x;assert(*p!=9);}}return 0;}@int:main x:4& p:8 { 1 { 1 x:=? case:1 { x & p:= p ulong * int 9 != assert ; } } switch 0 return } end
7 none 1 0 3 5@int main(void){int x,y;int *p=&x,*q=&y;assert(*p==3&&*q==5);}@int:main x:4& y:4& p:8 q:8 { x! y! x & p:= y & q:= p ulong * int 3 == q ulong * int 5 == && assert ; } end
5 none 1 0@int main(void){int x=1,y=2;int *p=&x,*q=&y;assert((long)p==4294967296L&&(long)q==8589934592L);}@int:main x:4& y:4& { 1 x:= 2 y:= x & 4294967296ul == y & 8589934592ul == && assert ; } end
0 stop 1 0@int main(void){int x=1;int *p=&x;__CPROVER_assume(0);return *p;}@int:main x:4& { 1 x:= 0 assume ; } end";

// The same of the order in which operands are evaluated.
const ORDERS: &str = "\
4 none 1 0@int x,y;int main(void){int *p=&x;y=5;assert((p=&y,0)[p]==5);}@object:4 object:4 int:main p:8 { #1 & p:= #2 5 int= ; p #2 & ulong= 0 , p ulong [4]~ int 5 == assert ; } end
4 none 1 0@int x,y;int main(void){int *p=&x;y=5;assert(p[(p=&y,0)]==0);}@object:4 object:4 int:main p:8 { #1 & p:= #2 5 int= ; p ulong p #2 & ulong= 0 , [4] int 0 == assert ; } end
2 none 1 0@int x,y;int main(void){int *p=&x;assert((p=&y,0)+p==&y);}@object:4 object:4 int:main p:8 { #1 & p:= p #2 & ulong= 0 , p ulong p+4~ #2 & == assert ; } end
2 none 1 0@int x,y;int main(void){int *p=&x;assert(p+(p=&y,0)==&x);}@object:4 object:4 int:main p:8 { #1 & p:= p ulong p #2 & ulong= 0 , p+4 #1 & == assert ; } end
2 none 1 0 17179869187@int main(void){int a[1][2],i=0;assert(i[a[(i=1,0)]]==a[0][0]);assert(a[0][0]==3);}@int:main a:8 i:4 { a! 0 i:= i int a i 1 int= 0 , [8/8] [4/8]~ int 3 == assert ; } end
2 none 1 0 17179869187@int main(void){int a[1][2],i=0;assert(a[(i=1,0)][i]==4);}@int:main a:8 i:4 { a! 0 i:= a i 1 int= 0 , [8/8] i int [4/8] int 4 == assert ; } end
7 none 1 0@int main(void){int x=1;int *p=&x;*p+=(x=5,1);assert(x==6);}@int:main x:4& p:8 { 1 x:= x & p:= p ulong * x 5 int= 1 , int+= ; x int 6 == assert ; } end
7 none 1 0 30064771079@int main(void){int a[2],i=0;int *p=a;p[i]=i++;assert(a[0]==0&&a[1]==7&&i==1);}@int:main a:8& i:4 p:8 { a! 0 i:= a & p:= p ulong i int [4] i int++ int= ; a 0 [4/8] int 0 == a 1 [4/8] int 7 == && i int 1 == && assert ; } end
6 none 1 0@int main(void){int x=1;int *p=&x;*p=(p=0,x+1);assert(x==2&&p==0);}@int:main x:4& p:8 { 1 x:= x & p:= p ulong * p 0ul ulong= x int 1 + , int= ; x int 2 == p ulong 0ul == && assert ; } end
9 none 1 0@int main(void){int a[2];int *q=a;int **r=&q;*r+=(r=0,1);assert(q==&a[1]&&r==0);}@int:main a:8& q:8& r:8 { a! a & q:= q & r:= r ulong * r 0ul ulong= 1 , p+=4 ; q ulong a 1 [4/8] & == r ulong 0ul == && assert ; } end";

// The same of lines: a read is at the line of its place, a write at that of its operator, a Look and its range at that of their node.
const LINES: &str = "\
1 null 3 0@int main(void){int *p=0;$*p$=1;return 0;}@int:main p:8 { 0ul p:= p ulong $ * 1 $ int= ; 0 return } end
1 null 2 0@int main(void){int *p=0;return$*$p;}@int:main p:8 { 0ul p:= p ulong $ * $ int return } end
1 null 2 0@int main(void){int *p=0;return p$[0];}@int:main p:8 { 0ul p:= p ulong 0 $ [4] $ int return } end
4 bounds 2 0@int main(void){int a[2];int *p=a;p$[3]$=1;return 0;}@int:main a:8& p:8 { a! a & p:= p ulong 3 $ [4] 1 $ int= ; 0 return } end
4 bounds 2 0@int main(void){int a[2];int *p=a;return p$[2];}@int:main a:8& p:8 { a! a & p:= p ulong 2 $ [4] $ int return } end
4 bounds 3 0@int main(void){int a[2];int *p=a;p$[2]$=1;return 0;}@int:main a:8& p:8 { a! a & p:= p ulong 2 $ [4] 1 $ int= ; 0 return } end
2 bounds 2 0@int main(void){int a[2];return a$[3];}@int:main a:8 { a! a 3 $ [4/8] $ int return } end
2 bounds 2 0@int main(void){int a[2];return a$[2];}@int:main a:8 { a! a 2 $ [4/8] $ int return } end
2 bounds 3 0@int main(void){int a[2];a$[2]$=1;return 0;}@int:main a:8 { a! a 2 $ [4/8] 1 $ int= ; 0 return } end
1 null 2 0@struct S{int a;int b;};int main(void){struct S *s=0;return s$->b;}@int:main s:8 { 0ul s:= s ulong $ ->4 $ int return } end
1 null 3 0@struct S{int a;int b;};int main(void){struct S *s=0;return ($*s)$.b;}@int:main s:8 { 0ul s:= s ulong $ * $ .4 $ int return } end
1 pointer 2 0@int main(void){int *p=0;p=p$+0;return 0;}@int:main p:8 { 0ul p:= p p ulong 0 $ p+4 $ ulong= ; 0 return } end
4 pointer 2 0@int main(void){int a[1];int *p=a;p=p$+2;return 0;}@int:main a:4& p:8 { a! a & p:= p p ulong 2 $ p+4 $ ulong= ; 0 return } end
1 null 2 0@int main(void){int *p=0;$*p$+=1;return 0;}@int:main p:8 { 0ul p:= p ulong $ * 1 $ int+= ; 0 return } end
2 readonly 3 0@const int c=1;int main(void){int *p=(int *)&c;$*p$+=1;return 0;}@const:4 int:main p:8 { #1 & p:= p ulong $ * 1 $ int+= ; 0 return } end
2 readonly 3 0@const int c=1;int main(void){int *p=(int *)&c;($*p)$++;return 0;}@const:4 int:main p:8 { #1 & p:= p ulong $ * $ int++ ; 0 return } end
4 lifetime 2 0@int main(void){int **r=malloc(8);free(r);$*r$+=1;return 0;}@int:main r:8 { 8ul malloc r:= r ulong free ; r ulong $ * 1 $ p+=4 ; 0 return } end
4 pointer 3 0@int main(void){int **r=malloc(8);$*r$+=1;return 0;}@int:main r:8 { 8ul malloc r:= r ulong $ * 1 $ p+=4 ; 0 return } end
3 readonly 3 0@int x;int *const q=&x;int main(void){int **r=(int **)&q;$*r$+=1;return 0;}@object:4 const:8 at:0/1/0 int:main r:8 { #2 & r:= r ulong $ * 1 $ p+=4 ; 0 return } end
3 readonly 3 0@int x;int *const q=&x;int main(void){int **r=(int **)&q;($*r)$++;return 0;}@object:4 const:8 at:0/1/0 int:main r:8 { #2 & r:= r ulong $ * $ p++4 ; 0 return } end
3 free 3 0@int main(void){int x;$free($&x);return 0;}@int:main x:4& { x! $ x & $ free ; 0 return } end
1 malloc-limit 2 0@int main(void){$malloc(257);return 0;}@int:main { $ 257ul malloc ; 0 return } end
1 malloc-limit 2 0@int main(void){$calloc(257,1);return 0;}@int:main { $ 257ul 1ul calloc ; 0 return } end
1 pointer 2 0@int x,y;int main(void){&x$-&y;return 0;}@object:4 object:4 int:main { #1 & #2 & $ p~4 ; 0 return } end
1 pointer 2 0@int x,y;int main(void){&x$>=&y;return 0;}@object:4 object:4 int:main { #1 & #2 & $ p>= ; 0 return } end
1 null 2 0@struct S{int a;int b;}t;int main(void){struct S *p=0;t=$*p;return 0;}@object:8 int:main p:8 { 0ul p:= #1 p ulong $ * $ @8 $ = drop ; 0 return } end
2 null 3 0@struct S{int a;int b;}t;int main(void){struct S *p=0;$*p$=t;return 0;}@object:8 int:main p:8 { 0ul p:= p ulong $ * #1 @8 $ = drop ; 0 return } end";

// The same of what is there at the start: static objects, then strings.
const STARTS: &str = "\
2 none 1 0@char *s=\"ab\";int g;int main(void){assert((unsigned long)s>>32==3);}@object:8 at:0/s0/0 object:4 string:ab int:main { #1 ulong 12884901888ul == assert ; } end
5 none 1 0@const char *t[2]={\"ab\",\"cd\"};int main(void){assert(t[1][0]=='c'&&(unsigned long)t[1]>>32==3);}@object:16 at:0/s0/0 at:8/s1/0 string:ab string:cd int:main { #1 1 [8/16] ulong 0 [1] char (int) 99 == #1 1 [8/16] ulong 12884901888ul == && assert ; } end
2 none 1 0@struct S{int a;int b[3];}s;int *p=&s.b[3];int main(void){assert((long)p==4294967312L);}@object:16 object:8 at:0/1/16 int:main { #2 ulong 4294967312ul == assert ; } end
5 none 1 0@int y;int x;int *p=&y;int main(void){y=3;assert(*p==3&&(unsigned long)p>>32==1);}@object:4 object:4 object:8 at:0/1/0 int:main { #1 3 int= ; #3 ulong * int 3 == #3 ulong 4294967296ul == && assert ; } end
1 none 1 0@int main(void){assert(\"a\"!=\"a\");}@string:a string:a int:main { '0 & '1 & != assert ; } end
3 none 1 0@int g;char *s;int main(void){int x=7;s=\"ab\";assert((unsigned long)&x>>32==4);}@object:4 object:8 string:ab int:main x:4& { 7 x:= x & 17179869184ul == assert ; } end
3 none 1 0@int main(void){char *s=\"ab\";assert(s[2]==0);}@string:ab int:main s:8 { '0 & s:= s ulong 2 [1] char (int) 0 == assert ; } end
2 bounds 1 0@int main(void){char *s=\"ab\";return s[3];}@string:ab int:main s:8 { '0 & s:= s ulong 3 [1] char (int) return } end
2 none 1 0@int *p;int main(void){assert(p==0);}@object:8 int:main { #1 ulong 0ul == assert ; } end";

// The typed file of a tree, which keeps the profile.
pub fn admitted(alloc: Global, tree: &str) -> Result<Admitted, Unread> {
    match admit(alloc, tree_of(alloc, tree)?) {
        Ok(file) => Ok(file),
        Err(_) => Err(Unread::Untyped),
    }
}

// Whether so many turns of a file that draws these words end so, those of its source and of its code.
fn end_so(
    alloc: Global,
    file: &Admitted,
    may_fail: bool,
    inputs: &Inputs,
    turns: u32,
    outcome: Outcome,
) -> Result<bool, Unread> {
    let bounds = Bounds::new(8, Vec::new(alloc), true, 256, may_fail);
    Ok(outcomes(alloc, file, &bounds, inputs, turns)? == [outcome; 4])
}

fn class_of(name: &str) -> Option<Class> {
    let classes = [
        ("assertion", Class::Assertion),
        ("division", Class::Division),
        ("null", Class::Null),
        ("invalid-pointer", Class::InvalidPointer),
        ("lifetime", Class::Lifetime),
        ("bounds", Class::Bounds),
        ("readonly", Class::Readonly),
        ("pointer", Class::Pointer),
        ("free", Class::Free),
        ("malloc-limit", Class::MallocLimit),
        ("recursion", Class::Recursion),
    ];
    for (known, class) in classes {
        if known == name {
            return Some(class);
        }
    }
    None
}

// How a row's run ends, in which turn, and what it draws.
#[derive(Drop)]
struct Wanted<'a> {
    turns: u32,
    name: &'a str,
    check: Check,
    inputs: Inputs,
}

fn number(words: &[&str], place: usize) -> u32 {
    match words.get(place) {
        Some(word) => word.parse::<u32>().unwrap_or(0),
        None => 0,
    }
}

fn wanted_of<'a>(alloc: Global, head: &'a str) -> Result<Wanted<'a>, Unread> {
    let words: Vec<&'a str> = head.split(' ').collect(alloc)?;
    let mut drawn = Vec::new(alloc);
    for place in 4..words.len() {
        drawn.push(words[place].parse::<u64>().unwrap_or(0))?;
    }
    let mut inputs = Inputs::new(alloc);
    inputs.insert(0, Words::new(drawn))?;
    let name = words.get(1).copied().unwrap_or("");
    let check = Check {
        class: class_of(name).unwrap_or(Class::Assertion),
        line: number(&words, 2),
        function: number(&words, 3),
        thread: 0,
    };
    Ok(Wanted {
        turns: number(&words, 0),
        name,
        check,
        inputs,
    })
}

// Whether the check breaks in its turn and none before.
fn breaks(
    alloc: Global,
    file: &Admitted,
    may_fail: bool,
    wanted: &Wanted,
    check: Check,
) -> Result<bool, Unread> {
    let turns = wanted.turns;
    let before = end_so(
        alloc,
        file,
        may_fail,
        &wanted.inputs,
        turns.saturating_sub(1),
        Outcome::Fine,
    )?;
    let broken = Outcome::Broken(check);
    Ok(before && end_so(alloc, file, may_fail, &wanted.inputs, turns, broken)?)
}

// The tree with a false assertion at its end, in a line of its own.
fn with_assertion(alloc: Global, tree: &str) -> Result<String, Unread> {
    match tree.strip_suffix(" } end") {
        Some(front) => Ok(format!(in alloc; "{front} $ 0 assert ; }} end")?),
        None => Err(Unread::Word),
    }
}

// Whether a row's tree breaks no check, and comes to its end in its turn or never.
fn is_fine(alloc: Global, tree: &str, may_fail: bool, wanted: &Wanted) -> Result<bool, Unread> {
    let longer = with_assertion(alloc, tree)?;
    let file = admitted(alloc, longer.as_str())?;
    if wanted.name == "stop" {
        return end_so(alloc, &file, may_fail, &wanted.inputs, 400, Outcome::Fine);
    }
    let check = Check {
        class: Class::Assertion,
        line: wanted.check.line.saturating_add(1),
        function: wanted.check.function,
        thread: 0,
    };
    let comes = breaks(alloc, &file, may_fail, wanted, check)?;
    let file = admitted(alloc, tree)?;
    Ok(comes && end_so(alloc, &file, may_fail, &wanted.inputs, 400, Outcome::Fine)?)
}

fn holds(alloc: Global, row: &str, may_fail: bool) -> Result<bool, Unread> {
    let (head, rest) = row.split_once('@').unwrap_or((row, ""));
    let (_, tree) = rest.split_once('@').unwrap_or(("", rest));
    let wanted = wanted_of(alloc, head)?;
    if class_of(wanted.name).is_none() {
        return is_fine(alloc, tree, may_fail, &wanted);
    }
    let file = admitted(alloc, tree)?;
    breaks(alloc, &file, may_fail, &wanted, wanted.check)
}

// The rows whose runs end otherwise, or that can't be read.
fn wrong_rows(alloc: Global, rows: &str, may_fail: bool) -> Result<String, AllocError> {
    let mut wrong = String::new(alloc);
    for row in rows.lines() {
        match holds(alloc, row, may_fail) {
            Ok(true) => {}
            Ok(false) => {
                wrong.push_str(row)?;
                wrong.push_str("\n")?;
            }
            Err(_) => {
                wrong.push_str("unread: ")?;
                wrong.push_str(row)?;
                wrong.push_str("\n")?;
            }
        }
    }
    Ok(wrong)
}

const TABLES: [&str; 7] = [ACCESSES, SUMS, HEAP, VARIABLES, ORDERS, LINES, STARTS];

#[test]
fn trees_have_their_runs(rt: HostRuntime) -> Result<(), Fail> {
    let mut wrong = wrong_rows(rt.alloc(), FAILING, true)?;
    for rows in TABLES {
        wrong.push_str(wrong_rows(rt.alloc(), rows, false)?.as_str())?;
    }
    assert_eq!(rt; wrong.as_str(), "");
    Ok(())
}
