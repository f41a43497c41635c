//! A program to read.

/// Ordinary Pascal: words, numbers, texts, comments and directives as programs have them.
pub const ORDINARY: &str = "{$R+,S-}
(* Stock: the articles of a shop, in order of their numbers. *)
const
  MaxItems = 200;
  Title = 'List of stock';
type
  Name = string[30];
  Item = record
    number: Integer;   { counts from 1 }
    title: Name;
    price, amount: LongInt;
  end;
  Items = array[1..MaxItems] of Item;
var
  stock: Items;
  count: Integer;

procedure Swap(var a, b: Item);
var
  t: Item;
begin
  t := a;
  a := b;
  b := t
end;

procedure Sort(var list: Items; n: Integer);
var
  i, j: Integer;
begin
  for i := 2 to n do
  begin
    j := i;
    while (j > 1) and (list[j - 1].number > list[j].number) do
    begin
      Swap(list[j - 1], list[j]);
      Dec(j)
    end
  end
end;

function Value(var list: Items; n: Integer): LongInt;
var
  k: Integer;
  sum: LongInt;
begin
  sum := 0;
  for k := 1 to n do
    if list[k].amount <> 0 then
      sum := sum + list[k].price * list[k].amount
    else if list[k].price >= $7FFF then
      WriteLn('There is no ', list[k].title, ', and it''s dear');
  Value := sum
end;

{$IFDEF Debug}
procedure Show(var list: Items; n: Integer);
begin
  WriteLn('debug: ', n)
end;
{$ENDIF}
";

/// A main part.
pub const MAIN: &str = "begin
  Sort(stock, count);
  WriteLn(Value(stock, count))
end.
";
