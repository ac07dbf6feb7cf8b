//! Examples of substitutions.
ghost use Rattle.std.specs.Prelude.{◌≡◌, ◌∷◌, [], codes};
ghost use Rattle.example_laws.specs.Answered.{answered, text};

/// Each substitution is replaced with its own text, by its long name or its short one.
pub fn each_substitution_has_its_own_text()
    ensures long { answered
        (text (
        codes "KERNELS==\"h\", PROGRAM==\"p\", ENV{X}=\"$kernel $number $devpath $id $driver $attr{m} $env{e} $major $minor\""
        ∷ codes "ENV{Y}=\"$result, $result{2} $result{2+} $parent $name $links $root $sys $devnode $$ %%\"" ∷ []))
        (codes "C: add\nP: /h/c!d1\nN: c/d1\nD: 104:16\nS: l\nA: m=Disk 7  \nE: e=f\nQ: p\nR: 0 ab cd ef\nP: /h\nN: b\nV: v")
        ≡ text (
        codes "event add /h/c!d1" ∷ codes "link l" ∷ codes "env ACTION=add" ∷ codes "env DEVNAME=/dev/c/d1"
        ∷ codes "env DEVPATH=/h/c!d1" ∷ codes "env MAJOR=104" ∷ codes "env MINOR=16"
        ∷ codes "env X=c/d1 1 /h/c!d1 h v Disk 7 f 104 16" ∷ codes "env Y=ab cd ef, cd cd ef b c/d1 l /dev /sys /dev/c/d1 $ %"
        ∷ codes "env e=f" ∷ codes "" ∷ []) }
    ensures short { answered
        (text (
        codes "KERNELS==\"h\", PROGRAM==\"p\", ENV{X}=\"%k %n %p %b $driver %s{m} %E{e} %M %m\""
        ∷ codes "ENV{Y}=\"%c, %c{2} %c{2+} %P $name $links %r %S %N $$ %%\"" ∷ []))
        (codes "C: add\nP: /h/c!d1\nN: c/d1\nD: 104:16\nS: l\nA: m=Disk 7  \nE: e=f\nQ: p\nR: 0 ab cd ef\nP: /h\nN: b\nV: v")
        ≡ text (
        codes "event add /h/c!d1" ∷ codes "link l" ∷ codes "env ACTION=add" ∷ codes "env DEVNAME=/dev/c/d1"
        ∷ codes "env DEVPATH=/h/c!d1" ∷ codes "env MAJOR=104" ∷ codes "env MINOR=16"
        ∷ codes "env X=c/d1 1 /h/c!d1 h v Disk 7 f 104 16" ∷ codes "env Y=ab cd ef, cd cd ef b c/d1 l /dev /sys /dev/c/d1 $ %"
        ∷ codes "env e=f" ∷ codes "" ∷ []) }
{}

/// What a device does not have is nothing, and each part of a number that it does not have is 0.
pub fn what_is_absent_is_replaced_with_nothing()
    ensures { answered
        (codes "ENV{X}=\"[$number|$id|$driver|$attr{a}|$env{a}|$major|$minor|$result|$result{1}|$parent|$links|$devnode]\"")
        (codes "C: add\nP: /d")
        ≡ codes "event add /d\nenv ACTION=add\nenv DEVPATH=/d\nenv X=[|||||0|0|||||]\n\n" }
{}

/// `$attr` is that of the event device, or else that of the selected one, made safe.
pub fn an_attribute_is_that_of_the_event_device_or_of_the_selected_one()
    ensures { answered
        (codes "KERNELS==\"h\", ENV{X}=\"$attr{a}$attr{b}$attr{c}\"")
        (codes "C: add\nP: /h/d\nA: a=1\nP: /h\nA: a=2\nA: b=3\nA: c=<,")
        ≡ codes "event add /h/d\nenv ACTION=add\nenv DEVPATH=/h/d\nenv X=13_,\n\n" }
{}

/// `$name` is the name that a rule gave, and `$links` are the links of that time.
pub fn a_name_is_the_assigned_one()
    ensures { answered
        (text (codes "ENV{A}=\"$name\", NAME=\"n\", SYMLINK+=\"l\"" ∷ codes "ENV{B}=\"$name $links\"" ∷ []))
        (codes "C: add\nP: /d\nU: net")
        ≡ codes "event add /d\nname n\nlink l\nenv A=d\nenv ACTION=add\nenv B=n l\nenv DEVPATH=/d\nenv SUBSYSTEM=net\n\n" }
{}
