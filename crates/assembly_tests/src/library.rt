use base_lib::{files, native};
use cil_listing::assembly::open;
use cil_listing::members::listing;
use std::alloc::Global;
use std::test::Fail;

/// The types and members of `mscorlib`.
#[rattlefmt::skip]
const MSCORLIB: &str = "<Module>\n\
System.Object\n\
\x20 public void .ctor()\n\
\x20 public newslot virtual native string ToString()\n\
\x20 public newslot virtual bool Equals(object)\n\
\x20 public static bool ReferenceEquals(object, object)\n\
abstract System.ValueType : System.Object\n\
\x20 public void .ctor()\n\
abstract System.Enum : System.ValueType\n\
\x20 public void .ctor()\n\
\x20 public virtual native bool Equals(object)\n\
\x20 public virtual native string ToString()\n\
abstract System.Array : System.Object\n\
\x20 public void .ctor()\n\
\x20 public native int get_Length()\n\
\x20 public static native void Copy(System.Array, int, System.Array, int, int)\n\
System.Attribute : System.Object\n\
\x20 public void .ctor()\n\
System.Void : System.ValueType\n\
System.RuntimeFieldHandle : System.ValueType\n\
abstract interface System.IDisposable\n\
\x20 public abstract newslot virtual void Dispose()\n\
System.Runtime.CompilerServices.RuntimeHelpers : System.Object\n\
\x20 public void .ctor()\n\
\x20 public static native void InitializeArray(System.Array, System.RuntimeFieldHandle)\n\
System.Math : System.Object\n\
\x20 public void .ctor()\n\
\x20 public static int Abs(int)\n\
\x20 public static int Max(int, int)\n\
\x20 public static int Min(int, int)\n\
System.Boolean : System.ValueType\n\
\x20 public virtual string ToString()\n\
\x20 public virtual bool Equals(object)\n\
System.Char : System.ValueType\n\
\x20 public virtual string ToString()\n\
\x20 public virtual bool Equals(object)\n\
System.SByte : System.ValueType\n\
\x20 public virtual string ToString()\n\
\x20 public virtual bool Equals(object)\n\
System.Byte : System.ValueType\n\
\x20 public virtual string ToString()\n\
\x20 public virtual bool Equals(object)\n\
System.Int16 : System.ValueType\n\
\x20 public virtual string ToString()\n\
\x20 public virtual bool Equals(object)\n\
System.UInt16 : System.ValueType\n\
\x20 public virtual string ToString()\n\
\x20 public virtual bool Equals(object)\n\
System.Int32 : System.ValueType\n\
\x20 public virtual string ToString()\n\
\x20 public virtual bool Equals(object)\n\
System.UInt32 : System.ValueType\n\
\x20 public virtual string ToString()\n\
\x20 public virtual bool Equals(object)\n\
System.Int64 : System.ValueType\n\
\x20 public virtual string ToString()\n\
\x20 public virtual bool Equals(object)\n\
System.UInt64 : System.ValueType\n\
\x20 public virtual string ToString()\n\
\x20 public virtual bool Equals(object)\n\
System.Number : System.Object\n\
\x20 public void .ctor()\n\
\x20 public static native string Signed(long)\n\
\x20 public static native string Unsigned(ulong)\n\
System.String : System.Object\n\
\x20 public static string Empty\n\
\x20 private static void .cctor()\n\
\x20 public void .ctor()\n\
\x20 public native int get_Length()\n\
\x20 public native char get_Chars(int)\n\
\x20 public static native string Concat(string, string)\n\
\x20 public native string Substring(int, int)\n\
\x20 public static native bool Equals(string, string)\n\
\x20 public static native int Compare(string, string)\n\
\x20 public static native string FromChars(char[], int, int)\n\
\x20 public static native string FromChar(char)\n\
\x20 public static string Concat(string, string, string)\n\
\x20 public static string Concat(string, string, string, string)\n\
\x20 public static string Concat(string[])\n\
\x20 internal static string TextOf(object)\n\
\x20 public static string Concat(object)\n\
\x20 public static string Concat(object, object)\n\
\x20 public static string Concat(object, object, object)\n\
\x20 public static string Concat(object[])\n\
\x20 public string Substring(int)\n\
\x20 public virtual bool Equals(object)\n\
\x20 public static bool op_Equality(string, string)\n\
\x20 public static bool op_Inequality(string, string)\n\
\x20 public int IndexOf(char)\n\
\x20 public virtual string ToString()\n\
System.Text.StringBuilder : System.Object\n\
\x20 private char[] chars\n\
\x20 private int length\n\
\x20 public void .ctor()\n\
\x20 private void Reserve(int)\n\
\x20 public System.Text.StringBuilder Append(string)\n\
\x20 public System.Text.StringBuilder Append(char)\n\
\x20 public System.Text.StringBuilder Append(object)\n\
\x20 public int get_Length()\n\
\x20 public virtual string ToString()\n\
System.Exception : System.Object\n\
\x20 private string message\n\
\x20 private System.Exception inner\n\
\x20 public void .ctor()\n\
\x20 public void .ctor(string)\n\
\x20 public void .ctor(string, System.Exception)\n\
\x20 public newslot virtual string get_Message()\n\
\x20 public System.Exception get_InnerException()\n\
\x20 public virtual string ToString()\n\
System.SystemException : System.Exception\n\
\x20 public void .ctor()\n\
\x20 public void .ctor(string)\n\
System.ArithmeticException : System.SystemException\n\
\x20 public void .ctor()\n\
\x20 public void .ctor(string)\n\
System.DivideByZeroException : System.ArithmeticException\n\
\x20 public void .ctor()\n\
\x20 public void .ctor(string)\n\
System.OverflowException : System.ArithmeticException\n\
\x20 public void .ctor()\n\
\x20 public void .ctor(string)\n\
System.IndexOutOfRangeException : System.SystemException\n\
\x20 public void .ctor()\n\
\x20 public void .ctor(string)\n\
System.InvalidCastException : System.SystemException\n\
\x20 public void .ctor()\n\
\x20 public void .ctor(string)\n\
System.NullReferenceException : System.SystemException\n\
\x20 public void .ctor()\n\
\x20 public void .ctor(string)\n\
System.ArrayTypeMismatchException : System.SystemException\n\
\x20 public void .ctor()\n\
\x20 public void .ctor(string)\n\
System.ArgumentException : System.SystemException\n\
\x20 public void .ctor()\n\
\x20 public void .ctor(string)\n\
System.ArgumentNullException : System.ArgumentException\n\
\x20 public void .ctor()\n\
\x20 public void .ctor(string)\n\
System.ArgumentOutOfRangeException : System.ArgumentException\n\
\x20 public void .ctor()\n\
\x20 public void .ctor(string)\n\
System.InvalidOperationException : System.SystemException\n\
\x20 public void .ctor()\n\
\x20 public void .ctor(string)\n\
System.NotSupportedException : System.SystemException\n\
\x20 public void .ctor()\n\
\x20 public void .ctor(string)\n\
abstract interface System.Collections.IEnumerator\n\
\x20 public abstract newslot virtual bool MoveNext()\n\
\x20 public abstract newslot virtual object get_Current()\n\
\x20 public abstract newslot virtual void Reset()\n\
abstract interface System.Collections.IEnumerable\n\
\x20 public abstract newslot virtual System.Collections.IEnumerator GetEnumerator()\n\
System.Collections.ArrayList : System.Object\n\
\x20 private object[] items\n\
\x20 private int count\n\
\x20 public void .ctor()\n\
\x20 private void Grow()\n\
\x20 public int Add(object)\n\
\x20 public int get_Count()\n\
\x20 public object get_Item(int)\n\
\x20 public void set_Item(int, object)\n\
\x20 public void RemoveAt(int)\n\
\x20 public bool Contains(object)\n\
\x20 public void Clear()\n\
\x20 public newslot virtual System.Collections.IEnumerator GetEnumerator()\n\
System.Collections.ArrayListEnumerator : System.Object\n\
\x20 private System.Collections.ArrayList list\n\
\x20 private int index\n\
\x20 public void .ctor()\n\
\x20 public newslot virtual bool MoveNext()\n\
\x20 public newslot virtual object get_Current()\n\
\x20 public newslot virtual void Reset()\n\
System.Collections.ArrayList implements System.Collections.IEnumerable\n\
System.Collections.ArrayListEnumerator implements System.Collections.IEnumerator\n";

/// Those of `Microsoft.SPOT.Native`.
#[rattlefmt::skip]
const NATIVE: &str = "<Module>\n\
Microsoft.SPOT.Debug : System.Object\n\
\x20 public void .ctor()\n\
\x20 public static native void Print(string)\n";

/// The listing of a file; none where a rule of 1 to 13 is broken.
fn listed(alloc: Global, file: &[u8]) -> Option<String> {
    let assembly = open(file).ok()?;
    listing(alloc, &assembly).ok()
}

#[test]
fn the_base_library_has_its_members(rt: HostRuntime) -> Result<(), Fail> {
    let files = files(rt.alloc()).ok().ok_or("there is memory")?;
    let listings = [MSCORLIB, NATIVE];
    assert_eq!(rt; files.len(), 2);
    for (file, expected) in files.iter().zip(listings.iter()) {
        let lines = listed(rt.alloc(), file.as_slice()).ok_or("no rule is broken")?;
        assert_eq!(rt; lines.as_str(), *expected);
    }
    Ok(())
}

#[test]
fn natives_are_named_by_type_and_method(rt: HostRuntime) {
    assert_eq!(rt; native(17), Some("Debug.Print"));
    assert_eq!(rt; native(18), None);
}
