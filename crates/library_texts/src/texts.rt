// Made by `tools/make_library.py`: change tools/library, not this file.
use crate::file::LibraryFile;

/// The library's files, in byte order of names.
#[rattlefmt::skip]
pub static FILES: [LibraryFile; 15] = [
    LibraryFile {
        name: "$lib/Actions.sysml",
        text: b"library package Actions {
    abstract action def Action :> Performances::Performance;
    abstract action actions : Action [0..*] :> Performances::performances;
}
",
    },
    LibraryFile {
        name: "$lib/Base.kerml",
        text: b"library package Base {
    abstract classifier Anything;
    abstract feature things : Anything [0..*];
    abstract datatype DataValue :> Anything;
    abstract feature dataValues : DataValue [0..*] :> things;
}
",
    },
    LibraryFile {
        name: "$lib/Calculations.sysml",
        text: b"library package Calculations {
    abstract calc def Calculation :> Actions::Action, Performances::Evaluation;
    abstract calc calculations : Calculation [0..*] :> Actions::actions, Performances::evaluations;
}
",
    },
    LibraryFile {
        name: "$lib/Connections.sysml",
        text: b"library package Connections {
    abstract connection def Connection :> Parts::Part, Links::Link;
    abstract connection connections : Connection [0..*] :> Parts::parts, Links::links;
}
",
    },
    LibraryFile {
        name: "$lib/Constraints.sysml",
        text: b"library package Constraints {
    abstract constraint def ConstraintCheck :> Performances::Evaluation;
    abstract constraint constraintChecks : ConstraintCheck [0..*] :> Performances::evaluations;
}
",
    },
    LibraryFile {
        name: "$lib/Interfaces.sysml",
        text: b"library package Interfaces {
    abstract interface def Interface :> Connections::Connection;
    abstract interface interfaces : Interface [0..*] :> Connections::connections;
}
",
    },
    LibraryFile {
        name: "$lib/Items.sysml",
        text: b"library package Items {
    abstract item def Item :> Objects::Object;
    abstract item items : Item [0..*] :> Objects::objects;
}
",
    },
    LibraryFile {
        name: "$lib/Links.kerml",
        text: b"library package Links {
    abstract assoc Link :> Base::Anything;
    abstract feature links : Link [0..*] :> Base::things;
    abstract feature selfLinks : Link [0..*] :> links;
}
",
    },
    LibraryFile {
        name: "$lib/Objects.kerml",
        text: b"library package Objects {
    abstract struct Object :> Occurrences::Occurrence;
    abstract feature objects : Object [0..*] :> Occurrences::occurrences;
}
",
    },
    LibraryFile {
        name: "$lib/Occurrences.kerml",
        text: b"library package Occurrences {
    private import Base::*;
    abstract class Occurrence :> Anything;
    abstract feature occurrences : Occurrence [0..*] :> things;
}
",
    },
    LibraryFile {
        name: "$lib/Parts.sysml",
        text: b"library package Parts {
    abstract part def Part :> Items::Item;
    abstract part parts : Part [0..*] :> Items::items;
}
",
    },
    LibraryFile {
        name: "$lib/Performances.kerml",
        text: b"library package Performances {
    abstract behavior Performance :> Occurrences::Occurrence;
    abstract step performances : Performance [0..*] :> Occurrences::occurrences;
    abstract function Evaluation :> Performance;
    abstract step evaluations : Evaluation [0..*] :> performances;
}
",
    },
    LibraryFile {
        name: "$lib/Ports.sysml",
        text: b"library package Ports {
    abstract port def Port :> Objects::Object;
    abstract port ports : Port [0..*] :> Objects::objects;
}
",
    },
    LibraryFile {
        name: "$lib/Requirements.sysml",
        text: b"library package Requirements {
    abstract requirement def RequirementCheck :> Constraints::ConstraintCheck;
    abstract requirement requirementChecks : RequirementCheck [0..*] :> Constraints::constraintChecks;
}
",
    },
    LibraryFile {
        name: "$lib/ScalarValues.kerml",
        text: b"library package ScalarValues {
    abstract datatype ScalarValue :> Base::DataValue;
    datatype Boolean :> ScalarValue;
    datatype String :> ScalarValue;
    abstract datatype NumericalValue :> ScalarValue;
    datatype Real :> NumericalValue;
    datatype Rational :> Real;
    datatype Integer :> Rational;
    datatype Natural :> Integer;
    datatype Positive :> Natural;
}
",
    },
];
